//! A place in an option area, which moves from option to option.
ghost use Rattle.std.specs.Prelude.{◌≡◌, ◌+◌, ◌≤◌, [], ◌∷◌, false, length, drop, Some, None, MatchOption};
ghost use Rattle.std.specs.Iterator.{YieldsFirstBy};
ghost use Rattle.dccp_options.specs.Grammar as spec;

use crate::kinds::{MANDATORY, PADDING, is_ignored_on_data, is_one_byte};
use crate::option::{Opt, OptFault};

// An option as it is in the area, Padding and Mandatory among them.
#[derive(Clone, Copy)]
pub(crate) struct RawOpt<'a> {
    place: u16,
    kind: u8,
    body: &'a [u8],
}

/// What is left of an option area, and where it begins there.
#[derive(Clone, Copy, Debug)]
pub(crate) struct Cursor<'a> {
    rest: &'a [u8],
    place: u16,
    on_data: bool,
    ghost fits: { place + length rest.now ≤ 1008 },
}

// The data that the length byte before it counts, and what follows it.
fn split_counted(rest: &[u8]) -> Option<(&[u8], &[u8])>
    ensures { MatchOption result (spec.counted_body rest.now ≡ None)
        (λ parts. (spec.counted_body rest.now ≡ Some parts.0.now)
        × (length parts.0.now + 1 ≤ length rest.now)
        × (parts.1.now ≡ drop (length parts.0.now + 1) rest.now)) }
{
    let (count, data) = rest.split_first()?;
    if *count < 2 {
        return None;
    }
    data.split_at_checked(usize::from(*count) - 2)
}

// The data of the option of this type, and what follows it.
fn split_option(kind: u8, rest: &[u8]) -> Option<(&[u8], &[u8])>
    ensures { MatchOption result (spec.option_body kind rest.now ≡ None)
        (λ parts. (spec.option_body kind rest.now ≡ Some parts.0.now)
        × (spec.bytes_after kind parts.0.now ≤ length rest.now)
        × (parts.1.now ≡ drop (spec.bytes_after kind parts.0.now) rest.now)) }
{
    if is_one_byte(kind) {
        Some((&[], rest))
    } else {
        split_counted(rest)
    }
}

impl<'a> Cursor<'a> {
    ghost use Rattle.dccp_options.specs.Grammar.{options_of};
    ghost use Rattle.dccp_options.specs.Left.{raw_of, item_of, raws_left, counted_left, entries_left};
    ghost use Rattle.dccp_options.specs.Vectors.{ack_vectors};

    /// At the beginning of an area of at most 1,008 bytes.
    pub(crate) fn new(area: &'a [u8], on_data: bool) -> Cursor<'a>
        requires { length area.now ≤ 1008 }
        ensures { entries_left false result ≡ spec.options_of area.now on_data }
    {
        Cursor {
            rest: area,
            place: 0,
            on_data,
        }
    }

    /// An area that has the Ack Vectors which are left: what is left, or nothing on a Data packet, which ignores them.
    #[tactic(auto, using(crate::proofs::VectorPlaces::vectors_anywhere, crate::proofs::VectorPlaces::none_on_data))]
    pub(crate) fn vectors(self) -> &'a [u8]
        ensures vectors { ack_vectors (options_of result.now false) ≡ ack_vectors (entries_left false self.entry) }
        ensures fits { length result.now ≤ 1008 }
    {
        if self.on_data { &[] } else { self.rest }
    }

    // The next option as it is in the area. One whose length is wrong ends the area.
    fn next_raw(&mut self) -> Option<RawOpt<'a>>
        ensures first { MatchOption result (raws_left self.old ≡ [])
            (λ raw. raws_left self.old ≡ raw_of raw ∷ raws_left self.new) }
        ensures ended { MatchOption result (raws_left self.new ≡ []) (λ _. length self.new.rest.now + 1 ≤ length self.old.rest.now) }
        ensures same { self.new.on_data ≡ self.old.on_data }
    {
        let (kind, following) = self.rest.split_first()?;
        let place = self.place;
        match split_option(*kind, following) {
            None => {
                self.rest = &[];
                None
            }
            Some((body, rest)) => {
                self.rest = rest;
                self.place = place + 1 + (following.len() - rest.len()) as u16;
                Some(RawOpt {
                    place,
                    kind: *kind,
                    body,
                })
            }
        }
    }

    // The next option that counts on the packet.
    fn next_counted(&mut self) -> Option<RawOpt<'a>>
        ensures first { MatchOption result (counted_left self.old ≡ [])
            (λ raw. counted_left self.old ≡ raw_of raw ∷ counted_left self.new) }
        ensures ended { MatchOption result (raws_left self.new ≡ []) (λ _. length self.new.rest.now + 1 ≤ length self.old.rest.now) }
    {
        while let Some(raw) = self.next_raw() {
            if !(self.on_data && is_ignored_on_data(raw.kind)) {
                return Some(raw);
            }
        }
        None
    }

    /// The next item of the list. A fault is the last.
    pub(crate) fn next_item(&mut self) -> Option<Result<Opt<'a>, OptFault>>
        ensures { YieldsFirstBy item_of (entries_left false) self.old result self.new }
    {
        let mut mandatory = false;
        while let Some(raw) = self.next_counted() {
            match raw.kind {
                PADDING => mandatory = false,
                MANDATORY if mandatory => {
                    self.rest = &[];
                    return Some(Err(OptFault::MandatoryTwice));
                }
                MANDATORY => mandatory = true,
                kind => {
                    return Some(Ok(Opt {
                        place: raw.place,
                        mandatory,
                        kind,
                        body: raw.body,
                    }));
                }
            }
        }
        if mandatory {
            Some(Err(OptFault::MandatoryAtEnd))
        } else {
            None
        }
    }
}
