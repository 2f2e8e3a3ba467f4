//! What a report makes of the entries, from the newest to the oldest.
//!
//! Whether an entry is lost depends on the entries after it, once the report has made its own entries Reported. So one
//! pass from the newest entry down does both. The pass begins at the newest entry that the report may reach: from the
//! place `heard` on all entries are Out, and those that the report does not reach stay so. It ends at the place
//! `settled`, before which every entry is Reported. It ends earlier at an entry to which the report gives no state, if
//! no entry before it is Out, since nothing older can change then. So later reports spend no time on a packet that was
//! lost long ago, or that was sent after the numbers that they reach. A Lost entry stays until 2,048 later ones drive
//! it out.
//!
//! While an older entry is Out, the pass cannot end, and an entry that is Reported costs no look at the report.
//!
//! Numbers need not rise: the contracts hold for every list. `span` is the sum of the steps from each number to the
//! next since the list was empty. The pass leaves out newest entries only if that sum and the most that a report
//! reaches are together at most the distance from an entry up to the acknowledgement number, as they are if the entry
//! lies past it. It ends early only if the sum and the distance from the entry up to the acknowledgement number are
//! together less than one turn of the circle. If numbers fall, the sum is too large for both, and the pass goes over
//! the list down to `settled`.
//!
//! While packets arrive in their order, a report says of the entries next after `settled` that they were received, and of
//! no others. `received_to` finds out, and no pass is needed.
ghost use Rattle.std.specs.Prelude.{◌≡◌, ℕ, ◌+◌, ◌-◌, ◌<◌, ◌≤◌, ◌&&◌, ◌||◌, IsTrue, not, nat_le, length, take, drop, slice_get, slice_set, Some, Option, IfSome};
ghost use Rattle.circular_buffer.specs.Buffer.{buffer};
ghost use Rattle.dccp_options.specs.Vectors.{state_at, is_received, is_unmarked, is_marked};
ghost use Rattle.congestion_trait.specs.Flight.{States, pipe_of, reported_count, after_report, acked_count, is_congested, is_out, is_reported, is_past};
ghost use Rattle.congestion_trait.specs.Walk.{standing_after, one_if, received_walk, AreReceived, IsAlong, AllReported, AllUnheard, FlightInvariant};

use crate::cursor::{Cursor, ends_before, is_out_of_reach};
use crate::flight::{FlightEntry, Standing};
use circular_buffer::HeapCircularBuffer;
use dccp_options::AckReport;
use seq_circle::Seq48;

// How many later entries have to be Reported for an entry to be Lost (RFC 4341, section 5).
const PASSING: u32 = 3;

const RECEIVED: u8 = 0;

const MARKED: u8 = 1;

// What is kept beside a list of entries, so that a report need not look at all of them.
#[derive(Clone, Copy)]
pub struct Counts {
    // How many are Out.
    pub out: u32,
    // The entries before this place are Reported.
    pub settled: usize,
    // The entries from this place on are Out.
    pub heard: usize,
    // If this is below 2^48: no number is more steps than this up from an earlier one.
    pub span: u64,
}

// The result of the entries so far; `seen` of them were Out before, and those from `heard` on are still.
#[derive(Clone, Copy)]
pub struct FlightWalk {
    pub acked: u32,
    pub congested: bool,
    pub reported: u32,
    pub out: u32,
    pub seen: u32,
    pub heard: usize,
}

fn is_past(mark: &Option<Seq48>, number: Seq48) -> bool
    ensures { result ≡ is_past mark.now number }
{
    match mark {
        Some(mark) => mark.before(number),
        None => true,
    }
}

fn is_reported(standing: Standing) -> bool
    ensures { result ≡ is_reported standing }
{
    matches!(standing, Standing::Reported)
}

// The standing of an entry after a report that gives its number this state.
fn standing_after(state: Option<u8>, passed: bool, standing: Standing) -> Standing
    ensures { result ≡ standing_after state passed standing }
{
    match (state, standing) {
        (Some(RECEIVED | MARKED), _) => Standing::Reported,
        (_, Standing::Out) if passed => Standing::Lost,
        _ => standing,
    }
}

// Whether a report that gives an entry this state acknowledges it newly, without a mark.
fn acks(state: Option<u8>, standing: Standing) -> bool
    ensures { result ≡ (not (is_reported standing) && is_unmarked state) }
{
    !is_reported(standing) && matches!(state, Some(RECEIVED))
}

// Whether it shows congestion: the entry is newly marked, or newly lost.
fn congests(state: Option<u8>, passed: bool, standing: Standing) -> bool
    ensures { result ≡ (not (is_reported standing) && is_marked state || is_out standing && not (is_received state) && passed) }
{
    match standing {
        Standing::Out => match state {
            Some(MARKED) => true,
            Some(RECEIVED) => false,
            Some(_) | None => passed,
        },
        Standing::Lost => matches!(state, Some(MARKED)),
        Standing::Reported => false,
    }
}

fn entry_at(entries: &HeapCircularBuffer<FlightEntry>, index: usize) -> FlightEntry
    requires { index < length entries.now.items }
    ensures { slice_get entries.now.items index ≡ Some result }
{
    match entries.get(index) {
        Some(entry) => *entry,
        None => unreachable!(),
    }
}

fn set_standing(entries: &mut HeapCircularBuffer<FlightEntry>, index: usize, standing: Standing)
    requires { index < length entries.old.items }
    ensures { (entry : _) → slice_get entries.old.items index ≡ Some entry
        → entries.new ≡ buffer (slice_set entries.old.items index (record entry { standing = standing })) entries.old.capacity }
{
    if let Some(entry) = entries.get_mut(index) {
        entry.standing = standing;
    }
}

impl FlightWalk {
    // Counts one entry, and returns its state after the report.
    fn step(&mut self, entry: &FlightEntry, state: Option<u8>, mark: &Option<Seq48>) -> Standing
        requires { (self.old.acked < 2048) × (self.old.reported < 2048) × (self.old.out < 2048) × (self.old.seen < 2048) }
        ensures standing { result ≡ standing_after state (nat_le 3 self.old.reported) entry.now.standing }
        ensures acked { self.new.acked ≡ self.old.acked + one_if (not (is_reported entry.now.standing) && is_unmarked state) }
        ensures congested { self.new.congested ≡ (is_past mark.now entry.now.number
            && (not (is_reported entry.now.standing) && is_marked state
            || is_out entry.now.standing && not (is_received state) && nat_le 3 self.old.reported)
            || self.old.congested) }
        ensures reported { self.new.reported ≡ self.old.reported + one_if (is_reported result) }
        ensures out { self.new.out ≡ self.old.out + one_if (is_out result) }
        ensures seen { self.new.seen ≡ self.old.seen + one_if (is_out entry.now.standing) }
        ensures heard { self.new.heard ≡ self.old.heard }
    {
        let passed = self.reported >= PASSING;
        let after = standing_after(state, passed, entry.standing);
        if acks(state, entry.standing) {
            self.acked += 1;
        }
        if congests(state, passed, entry.standing) && is_past(mark, entry.number) {
            self.congested = true;
        }
        if matches!(entry.standing, Standing::Out) {
            self.seen += 1;
        }
        match after {
            Standing::Out => self.out += 1,
            Standing::Reported => self.reported += 1,
            Standing::Lost => {}
        }
        after
    }
}

// Whether no entry is known to be reached by a report, and the report reaches none: all that are not Reported lie after
// its numbers.
pub fn is_unreached(
    entries: &HeapCircularBuffer<FlightEntry>,
    counts: &Counts,
    report: &AckReport<'_>,
) -> bool
    requires kept { FlightInvariant entries.now.items entries.now.capacity counts.now }
    ensures { IsTrue result → AllUnheard (state_at report.now.ack report.now.bytes) (drop counts.now.settled entries.now.items) }
{
    if counts.settled < counts.heard {
        return false;
    }
    match entries.get(counts.settled) {
        Some(entry) => is_out_of_reach(report, entry.number, counts.span),
        None => true,
    }
}

// The place from which on all entries are Out and the report reaches none.
fn unheard_from(
    entries: &HeapCircularBuffer<FlightEntry>,
    counts: &Counts,
    report: &AckReport<'_>,
) -> usize
    requires few { length report.now.bytes ≤ 1008 }
    requires kept { FlightInvariant entries.now.items entries.now.capacity counts.now }
    ensures within { result ≤ length entries.now.items }
    ensures settled { counts.now.settled ≤ result }
    ensures unheard { AllUnheard (state_at report.now.ack report.now.bytes) (drop result entries.now.items) }
{
    let mut place = counts.heard.max(counts.settled);
    while place < entries.len() {
        let entry = entry_at(entries, place);
        if is_out_of_reach(report, entry.number, counts.span) {
            return place;
        }
        place += 1;
    }
    place
}

// The place up to which the entries after the settled ones were received, if no report has reached one of them yet, and
// the first run of this one says so of each, and nothing of those after them, as it is where packets arrive in order.
#[inline(always)]
pub fn received_to(
    entries: &HeapCircularBuffer<FlightEntry>,
    counts: &Counts,
    report: &AckReport<'_>,
) -> Option<usize>
    requires kept { FlightInvariant entries.now.items entries.now.capacity counts.now }
    ensures { IfSome result (λ heard. (counts.now.settled ≤ heard) × (heard ≤ length entries.now.items)
        × AllUnheard (state_at report.now.ack report.now.bytes) (drop heard entries.now.items)
        × AreReceived (state_at report.now.ack report.now.bytes) counts.now.settled heard entries.now.items) }
{
    if counts.settled < counts.heard {
        return None;
    }
    let cursor = Cursor::new(report);
    let mut place = counts.settled;
    while place < entries.len() {
        let entry = entry_at(entries, place);
        if !cursor.has_received(report, entry.number) {
            return if is_out_of_reach(report, entry.number, counts.span) {
                Some(place)
            } else {
                None
            };
        }
        place += 1;
    }
    Some(place)
}

// Makes the entries from one place up to another Reported.
#[inline(always)]
pub fn settle_received(entries: &mut HeapCircularBuffer<FlightEntry>, from: usize, to: usize)
    requires from { from ≤ to }
    requires to { to ≤ length entries.old.items }
    ensures capacity { entries.new.capacity ≡ entries.old.capacity }
    ensures along { (told : States) (mark : Option ℕ) → AllUnheard told (drop to entries.old.items) → AreReceived told from to entries.old.items
        → IsAlong told mark entries.old.items from entries.new.items (received_walk (length entries.old.items - to) (to - from) to) }
{
    let mut index = to;
    while index > from {
        index -= 1;
        // Gives the prover the entry.
        let _entry = entry_at(entries, index);
        set_standing(entries, index, Standing::Reported);
    }
}

// Settles the entries by a report, from the newest that it may reach down to where no older one is Out or is reached by
// it.
#[inline(always)]
pub fn settle(
    entries: &mut HeapCircularBuffer<FlightEntry>,
    counts: &Counts,
    report: &AckReport<'_>,
    mark: &Option<Seq48>,
) -> FlightWalk
    requires few { length entries.old.items ≤ 2048 }
    requires kept { FlightInvariant entries.old.items entries.old.capacity counts.now }
    ensures entries { entries.new ≡ buffer (after_report (state_at report.now.ack report.now.bytes) entries.old.items) entries.old.capacity }
    ensures acked { result.acked ≡ acked_count (state_at report.now.ack report.now.bytes) entries.old.items }
    ensures congested { result.congested ≡ is_congested (state_at report.now.ack report.now.bytes) mark.now entries.old.items }
    ensures out { result.out ≡ pipe_of (after_report (state_at report.now.ack report.now.bytes) entries.old.items) }
    ensures within { result.heard ≤ length entries.old.items }
    ensures unheard { AllUnheard (state_at report.now.ack report.now.bytes) (drop result.heard entries.old.items) }
{
    let mut cursor = Cursor::new(report);
    let heard = unheard_from(entries, counts, report);
    let unheard = (entries.len() - heard) as u32;
    let mut walk = FlightWalk {
        acked: 0,
        congested: false,
        reported: 0,
        out: unheard,
        seen: unheard,
        heard,
    };
    let mut index = heard;
    // No entry before this place is changed.
    let mut untouched = counts.settled;
    while index > untouched {
        index -= 1;
        let entry = entry_at(entries, index);
        if is_reported(entry.standing) && walk.seen != counts.out {
            walk.reported += 1;
            continue;
        }
        let state = cursor.state(report, entry.number);
        let standing = walk.step(&entry, state, mark);
        set_standing(entries, index, standing);
        if walk.seen == counts.out && ends_before(report, state, entry.number, counts.span) {
            untouched = index;
        }
    }
    walk
}

// How many entries at the front are Reported; the first `known` of them are known to be.
pub fn settled_from(entries: &HeapCircularBuffer<FlightEntry>, known: usize) -> usize
    requires within { known ≤ length entries.now.items }
    requires front { AllReported (take known entries.now.items) }
    ensures within { result ≤ length entries.now.items }
    ensures front { AllReported (take result entries.now.items) }
{
    let mut settled = known;
    while settled < entries.len() && is_reported(entry_at(entries, settled).standing) {
        settled += 1;
    }
    settled
}
