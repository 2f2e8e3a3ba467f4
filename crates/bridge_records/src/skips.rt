//! What is skipped of a capture, counted.
ghost use Rattle.std.specs.Prelude.{◌≡◌};
ghost use Rattle.bridge_records.specs.Skips as spec;

/// How many of one kind were skipped (own).
#[derive(Clone, Copy)]
pub struct Tally {
    pub count: u64,
    /// What is kept about the first one, or 0 if there is none.
    pub first: u32,
}

/// What is skipped of a pcapng file (own).
#[derive(Clone, Copy)]
pub struct Skips {
    /// Packets whose link type is not known, which are records without IP. About the first, its link type is kept.
    pub links: Tally,
    /// Packets of more than 262,144 bytes, or in blocks of more than 524,288, which are no records. About the first,
    /// its number of bytes is kept.
    pub long: Tally,
    /// Blocks of types that are not read. About the first, its type is kept.
    pub blocks: Tally,
}

// Nothing of a kind was skipped.
const NONE: Tally = Tally { count: 0, first: 0 };

impl Tally {
    /// One more of a kind was skipped.
    pub(crate) fn one_more(self, told: u32) -> Tally
        ensures { result ≡ spec.tally_with self told }
    {
        Tally {
            count: self.count.saturating_add(1),
            first: if self.count == 0 { told } else { self.first },
        }
    }
}

impl Skips {
    /// Nothing was skipped.
    pub fn none() -> Skips
        ensures { result ≡ spec.no_skips }
    {
        Skips {
            links: NONE,
            long: NONE,
            blocks: NONE,
        }
    }
}
