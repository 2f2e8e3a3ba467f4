//! What the options of a packet say to the rows of an end (RFC 4340, section 8.5, step 8).
ghost use Rattle.std.specs.Prelude.{◌≡◌, ◌<◌, ◌≤◌, ◌++◌, ◌∷◌, [], ℕ, List, Option, None, Result, Ok, true, false, length, IsSome, IfSome};
ghost use Rattle.dccp_options.specs.Grammar.{Entry, options_of};
ghost use Rattle.dccp_options.specs.Left.{entry_of_option, item_of};
ghost use Rattle.dccp_options.specs.declared.option.OptFault.{OptFault};
ghost use Rattle.dccp_endpoint.specs.Silent.{IsFirstOf};
ghost use Rattle.dccp_endpoint.specs.Receiving.{fault_if, reads_request};
ghost use Rattle.dccp_endpoint.specs.Heeding.{AreBlank, ReadingState, counted, heeding_or, heeds, heeds_body, heeds_change, heeds_confirm, heeds_entry};
ghost use Rattle.dccp_endpoint.specs.Heeding.{heeds_feature, heeds_first, heeds_item, is_change, is_left, is_of_negotiation, met_beside, misunderstood, place_in_used, read_beside, unheeded};

use crate::faults::{fault_of, mandatory_fault};
use crate::speaking::DueConfirm;
use crate::{Fault, Lists};
use arrayvec::ArrayVec;
use dccp_options::kinds::{CHANGE_L, CHANGE_R, CONFIRM_L, CONFIRM_R};
use dccp_options::{Opt, OptFault, OptList, options};
use dccp_packets::ResetCode;
use feature_machine::{Answer, Negotiation, Role2, Settling};
use seq_circle::Seq48;
use std::marker::Model;

// How many Changes of a packet count.
const MOST_CHANGES: usize = 64;

/// The result so far of reading the options of a packet, beside the rows: which features had an option by L and by R, how
/// many Changes were met, and the Confirms that are due, in order.
#[derive(Drop)]
pub(crate) struct Reading {
    changes: usize,
    used: [bool; 512],
    confirms: ArrayVec<DueConfirm, MOST_CHANGES>,
}

impl Model for Reading {
    ghost use Rattle.std.specs.Prelude.{◌≤◌, length};
    ghost use Rattle.dccp_endpoint.specs.Heeding.{ReadingNotes};

    ghost Value = { ReadingNotes };

    ghost view = { λ r. record { used = r.used; changes = r.changes; confirms = r.confirms.items } };

    ghost invariant = { λ r. (length r.confirms.items ≤ r.changes) × (r.changes ≤ 64) };
}

// The place of a feature number and L or R among 512.
fn place_in_used(left: bool, number: u8) -> usize
    ensures place { result ≡ place_in_used left number }
    ensures fits { result < 512 }
{
    let even = 2 * usize::from(number);
    if left { even + 1 } else { even }
}

// Of the four types of the negotiation, Change L and Confirm L.
fn is_left(kind: u8) -> bool
    ensures { result ≡ is_left kind }
{
    kind <= CONFIRM_L
}

// Change L and Change R.
fn is_change(kind: u8) -> bool
    ensures { result ≡ is_change kind }
{
    kind == CHANGE_L || kind == CHANGE_R
}

// Change L, Confirm L, Change R and Confirm R.
fn is_of_negotiation(kind: u8) -> bool
    ensures { result ≡ is_of_negotiation kind }
{
    CHANGE_L <= kind && kind <= CONFIRM_R
}

// An option that is not understood is a fault only after Mandatory.
fn misunderstand(option: &Opt<'_>) -> Result<(), Fault>
    ensures { (heeding : ReadingState) → heeding_or heeding result ≡ misunderstood heeding (entry_of_option option.now) }
{
    if option.mandatory {
        return Err(fault_of(ResetCode::MandatoryError, option));
    }
    Ok(())
}

impl Reading {
    /// Nothing was noted yet.
    pub(crate) fn new() -> Reading
        ensures { AreBlank result }
    {
        Reading {
            used: [false; 512],
            changes: 0,
            confirms: ArrayVec::new(),
        }
    }

    /// The Confirms that are due.
    pub(crate) fn confirms(&self) -> &[DueConfirm]
        ensures confirms { result.now ≡ self.now.confirms }
        ensures few { length result.now ≤ 64 }
    {
        self.confirms.as_slice()
    }

    // One Change more, up to 64.
    fn count(&mut self, change: bool)
        ensures { self.new ≡ record self.old { changes = counted self.old.changes change } }
    {
        if change && self.changes < MOST_CHANGES {
            self.changes += 1;
        }
    }

    // Notes the option: from now on no other one for its feature by its letter counts.
    fn meet(&mut self, place: usize, change: bool)
        requires { place < 512 }
        ensures { self.new ≡ met_beside self.old place change self.old.confirms }
    {
        self.used[place] = true;
        self.count(change);
    }

    // A Change was met, and its Confirm is due after the others.
    fn owe(&mut self, place: usize, confirm: DueConfirm)
        requires place { place < 512 }
        requires few { self.old.changes < 64 }
        ensures { self.new ≡ met_beside self.old place true (self.old.confirms ++ confirm ∷ []) }
    {
        self.used[place] = true;
        self.changes += 1;
        self.confirms.push(confirm);
    }

    // A Change, by what its row answers.
    fn heed_change(
        &mut self,
        rows: &mut Negotiation,
        option: &Opt<'_>,
        left: bool,
        number: u8,
        body: &[u8],
    ) -> Result<(), Fault>
        requires { self.old.changes < 64 }
        ensures { heeding_or (read_beside rows.new self.new) result ≡ heeds_change (read_beside rows.old self.old) (entry_of_option option.now) left number body.now }
    {
        match rows.on_change(left, number, body, option.mandatory) {
            Answer::Confirm(out) => {
                self.owe(place_in_used(left, number), DueConfirm::of(&out));
                Ok(())
            }
            Answer::Ignored => {
                self.meet(place_in_used(left, number), true);
                Ok(())
            }
            Answer::Fatal => Err(fault_of(ResetCode::MandatoryError, option)),
        }
    }

    // A Confirm, by what its row answers.
    fn heed_confirm(
        &mut self,
        rows: &mut Negotiation,
        option: &Opt<'_>,
        left: bool,
        number: u8,
        body: &[u8],
        ack: &Option<Seq48>,
    ) -> Result<(), Fault>
        ensures { heeding_or (read_beside rows.new self.new) result ≡ heeds_confirm ack.now (read_beside rows.old self.old) (entry_of_option option.now) left number body.now }
    {
        match rows.on_confirm(left, number, body, *ack) {
            Settling::Settled | Settling::Ignored => {
                self.meet(place_in_used(left, number), false);
                Ok(())
            }
            Settling::Fatal => Err(fault_of(ResetCode::OptionError, option)),
        }
    }

    // The first option for a feature by a letter; of Changes, one of the first 64 of the packet.
    fn heed_first(
        &mut self,
        rows: &mut Negotiation,
        option: &Opt<'_>,
        change: bool,
        left: bool,
        number: u8,
        body: &[u8],
        ack: &Option<Seq48>,
    ) -> Result<(), Fault>
        ensures { heeding_or (read_beside rows.new self.new) result ≡ heeds_first ack.now (read_beside rows.old self.old) (entry_of_option option.now) change left number body.now }
    {
        if !change {
            return self.heed_confirm(rows, option, left, number, body, ack);
        }
        if self.changes < MOST_CHANGES {
            return self.heed_change(rows, option, left, number, body);
        }
        self.meet(place_in_used(left, number), true);
        Ok(())
    }

    // A later one for the same feature by the same letter is passed over.
    fn heed_feature(
        &mut self,
        rows: &mut Negotiation,
        option: &Opt<'_>,
        change: bool,
        left: bool,
        number: u8,
        body: &[u8],
        ack: &Option<Seq48>,
    ) -> Result<(), Fault>
        ensures { heeding_or (read_beside rows.new self.new) result ≡ heeds_feature ack.now (read_beside rows.old self.old) (entry_of_option option.now) change left number body.now }
    {
        if self.used[place_in_used(left, number)] {
            self.count(change);
            return Ok(());
        }
        self.heed_first(rows, option, change, left, number, body, ack)
    }

    // The data are the feature number and what follows it.
    fn heed_body(
        &mut self,
        rows: &mut Negotiation,
        option: &Opt<'_>,
        ack: &Option<Seq48>,
    ) -> Result<(), Fault>
        ensures { heeding_or (read_beside rows.new self.new) result ≡ heeds_body ack.now (read_beside rows.old self.old) (entry_of_option option.now) option.now.body.now }
    {
        match option.body {
            [] => Ok(()),
            [number, body @ ..] => self.heed_feature(
                rows,
                option,
                is_change(option.kind),
                is_left(option.kind),
                *number,
                body,
                ack,
            ),
        }
    }

    // An option of the negotiation is heeded if such options count. All others say nothing to the rows.
    fn heed_option(
        &mut self,
        rows: &mut Negotiation,
        option: &Opt<'_>,
        count: bool,
        ack: &Option<Seq48>,
    ) -> Result<(), Fault>
        ensures { heeding_or (read_beside rows.new self.new) result ≡ heeds_entry count ack.now (read_beside rows.old self.old) (entry_of_option option.now) }
    {
        if !option.is_understood() {
            return misunderstand(option);
        }
        if count && is_of_negotiation(option.kind) {
            return self.heed_body(rows, option, ack);
        }
        Ok(())
    }

    // An option, or a fault of Mandatory itself; `count` says whether options of the negotiation count.
    fn heed_item(
        &mut self,
        rows: &mut Negotiation,
        item: &Result<Opt<'_>, OptFault>,
        count: bool,
        ack: &Option<Seq48>,
    ) -> Result<(), Fault>
        ensures { heeding_or (read_beside rows.new self.new) result ≡ heeds_item count ack.now (read_beside rows.old self.old) (item_of item.now) }
    {
        match item {
            Ok(option) => self.heed_option(rows, option, count, ack),
            Err(_) => Err(mandatory_fault()),
        }
    }
}

/// Reads the options of an area, on a Data packet or on another, in order, up to the first fault; `count` says whether
/// those of the negotiation count, and `ack` is the packet's acknowledgement number.
pub(crate) fn heed(
    rows: &mut Negotiation,
    reading: &mut Reading,
    area: &[u8],
    on_data: bool,
    count: bool,
    ack: &Option<Seq48>,
) -> Result<(), Fault>
    requires { length area.now ≤ 1008 }
    ensures { heeding_or (read_beside rows.new reading.new) result ≡ heeds count ack.now (read_beside rows.old reading.old) (options_of area.now on_data) }
{
    for item in options(area, on_data) {
        reading.heed_item(rows, &item, count, ack)?;
    }
    Ok(())
}

// An option that has no fault and says nothing to the rows.
fn is_silent(item: &Result<Opt<'_>, OptFault>, count: bool) -> bool
    ensures { result ≡ true → (ack : Option ℕ) (heeding : ReadingState)
        → heeds_item count ack heeding (item_of item.now) ≡ Ok heeding }
{
    match item {
        Ok(option) if option.is_ack_vector() => true,
        Ok(option) if is_of_negotiation(option.kind) => !count && option.is_understood(),
        Ok(option) => option.is_understood(),
        Err(_) => false,
    }
}

/// The data of a packet's first Ack Vector, and the options after it.
#[derive(Drop)]
pub(crate) struct FirstVector<'a> {
    pub(crate) data: &'a [u8],
    pub(crate) following: OptList<'a>,
}

// Keeps the first Ack Vector, if this item is it, with the options after it.
fn keep_first<'a>(
    first: &mut Option<FirstVector<'a>>,
    item: &Result<Opt<'a>, OptFault>,
    following: &OptList<'a>,
)
    ensures { (items : List (Result Entry OptFault)) → IsFirstOf first.old (item_of item.now ∷ following.now) items → IsFirstOf first.new following.now items }
{
    if first.is_some() {
        return;
    }
    match item {
        Ok(option) if option.is_ack_vector() => {
            *first = Some(FirstVector {
                data: option.body,
                following: following.again(),
            });
        }
        Ok(_) | Err(_) => {}
    }
}

/// Where no option of an area has a fault or says anything to the rows, as is usual: the first Ack Vector of the area, if
/// it has one. None if there is anything to read. One walk finds out both.
#[inline(always)]
pub(crate) fn silent_options<'a>(
    area: &'a [u8],
    on_data: bool,
    count: bool,
) -> Option<Option<FirstVector<'a>>>
    requires { length area.now ≤ 1008 }
    ensures silent { IsSome result → (ack : Option ℕ) (heeding : ReadingState)
        → heeds count ack heeding (options_of area.now on_data) ≡ Ok heeding }
    ensures first { IfSome result (λ first. IsFirstOf first [] (options_of area.now on_data)) }
{
    let mut left = options(area, on_data);
    let mut first = None;
    while let Some(item) = left.next() {
        if !is_silent(&item, count) {
            return None;
        }
        keep_first(&mut first, &item, &left);
    }
    Some(first)
}

// Reads an option area of a Request, if the rows are these.
fn heed_beside(rows: &mut Negotiation, area: &[u8]) -> Result<(), Fault>
    requires { length area.now ≤ 1008 }
    ensures { result ≡ fault_if (heeds true None (unheeded rows.old) (options_of area.now false)) }
{
    let mut reading = Reading::new();
    heed(rows, &mut reading, area, false, true, &None)?;
    Ok(())
}

// The same, if they are fresh. It is a separate function, since the room of the rows is made ready at its beginning,
// and few Requests come here.
fn heed_freshly(lists: &Lists, area: &[u8]) -> Result<(), Fault>
    requires { length area.now ≤ 1008 }
    ensures { result ≡ fault_if (reads_request lists.now area.now) }
{
    heed_beside(&mut Negotiation::new(Role2::Server, lists), area)
}

/// Reads the option area of a Request without an end, as a server's end in LISTEN would whose configuration has these
/// lists and whose service the Request asks for. Ok if that end would answer the Request, and otherwise the fault for
/// which it would close, which its Reset would name (RFC 4340, sections 5.8 and 8.5, step 8). It takes no memory.
pub(crate) fn heed_request(lists: &Lists, area: &[u8]) -> Result<(), Fault>
    requires { length area.now ≤ 1008 }
    ensures { result ≡ fault_if (reads_request lists.now area.now) }
{
    if silent_options(area, false, true).is_some() {
        return Ok(());
    }
    heed_freshly(lists, area)
}
