//! The bytes of a packet's Ack Vectors, one vector after the other.
ghost use Rattle.std.specs.Prelude.{◌≡◌, ◌≢◌, ◌≤◌, [], ◌∷◌, ◌++◌, length, MatchOption, false};
ghost use Rattle.dccp_options.specs.Grammar.{options_of};
ghost use Rattle.dccp_options.specs.Vectors.{ack_vectors, vector_bytes};

use crate::cursor::Cursor;
use crate::kinds::is_ack_vector;

/// The bytes that are left: those of a vector, and of the vectors in an area after it.
#[derive(Clone, Copy)]
pub(crate) struct JoinedBytes<'a> {
    pub(crate) vector: &'a [u8],
    area: &'a [u8],
    ghost fits: { length area.now ≤ 1008 },
}

// The first Ack Vector of an area, and the area after it.
#[inline(always)]
fn first_vector<'a>(area: &'a [u8]) -> Option<(&'a [u8], &'a [u8])>
    requires { length area.now ≤ 1008 }
    ensures { MatchOption result (ack_vectors (options_of area.now false) ≡ [])
        (λ next. (ack_vectors (options_of area.now false) ≡ next.0.now ∷ ack_vectors (options_of next.1.now false))
        × (length next.1.now ≤ 1008)) }
{
    let mut options = Cursor::new(area, false);
    while let Some(item) = options.next_item() {
        match item {
            Ok(option) if is_ack_vector(option.kind) => {
                return Some((option.body, options.vectors()));
            }
            _ => {}
        }
    }
    None
}

// The same in a separate function, so that a next byte of the same vector costs no call. The area goes in and out by
// value, so that a walk over bytes keeps its place in registers.
#[inline(never)]
fn next_vector<'a>(area: &'a [u8]) -> Option<(&'a [u8], &'a [u8])>
    requires { length area.now ≤ 1008 }
    ensures { MatchOption result (ack_vectors (options_of area.now false) ≡ [])
        (λ next. (ack_vectors (options_of area.now false) ≡ next.0.now ∷ ack_vectors (options_of next.1.now false))
        × (length next.1.now ≤ 1008)) }
{
    first_vector(area)
}

impl<'a> JoinedBytes<'a> {
    ghost use Rattle.dccp_options.specs.Left.{bytes_left, entries_left};

    /// The bytes of the Ack Vectors among the options, or None if there is none.
    pub(crate) fn of(options: Cursor<'a>) -> Option<JoinedBytes<'a>>
        ensures { MatchOption result (ack_vectors (entries_left false options.entry) ≡ [])
            (λ joined. (ack_vectors (entries_left false options.entry) ≢ [])
            × (bytes_left joined ≡ vector_bytes (entries_left false options.entry))
            × (length (bytes_left joined) ≤ 1008)) }
    {
        let (vector, area) = first_vector(options.vectors())?;
        Some(JoinedBytes { vector, area })
    }

    /// The bytes of a vector, and of the vectors among the options after it.
    pub(crate) fn from_first(vector: &'a [u8], options: Cursor<'a>) -> JoinedBytes<'a>
        ensures { bytes_left result ≡ vector.now ++ vector_bytes (entries_left false options.entry) }
    {
        JoinedBytes {
            vector,
            area: options.vectors(),
        }
    }
}

impl<'a> Iterator for JoinedBytes<'a> {
    ghost use Rattle.std.specs.Iterator.{YieldsFirst, item_count};
    ghost use Rattle.dccp_options.specs.Left.{bytes_left};

    type Item = u8;

    ghost next_gives = { YieldsFirst bytes_left };

    ghost remaining = { item_count bytes_left };

    #[inline(always)]
    fn next(&mut self) -> Option<u8> {
        loop {
            if let [byte, rest @ ..] = self.vector {
                self.vector = rest;
                return Some(*byte);
            }
            let (vector, area) = next_vector(self.area)?;
            self.vector = vector;
            self.area = area;
        }
    }
}
