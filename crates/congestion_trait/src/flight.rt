//! The flight list: packets that were sent, and what is known of them.
ghost use Rattle.std.specs.Prelude.{◌≡◌, ℕ, ◌+◌, ◌-◌, ◌^◌, ◌<◌, ◌≤◌, [], ◌∷◌, ◌++◌, ◌↔◌, IsTrue, Contains, length, IfOk, Option, if◌then◌else◌};
ghost use Rattle.std.specs.Option.{option_to_list};
ghost use Rattle.dccp_options.specs.Vectors.{state_at};
ghost use Rattle.congestion_trait.specs.Flight.{Has, pipe_of, sent, after_report, acked_count, is_congested};
ghost use Rattle.congestion_trait.specs.Walk.{was_out, numbers};
ghost use Rattle.seq_circle.specs.Near.{AreNear};
ghost use Rattle.congestion_trait.specs.declared.flight.Standing.TheVariants.{Reported};

use crate::walk::{Counts, is_unreached, received_to, settle, settle_received, settled_from};
use circular_buffer::HeapCircularBuffer;
use dccp_options::AckReport;
use seq_circle::{NoMemory, Seq48};
use std::alloc::Global;
use std::marker::Model;

const CAPACITY: usize = 2048;

const NOTHING: Counts = Counts {
    out: 0,
    settled: 0,
    heard: 0,
    span: 0,
};

/// The standing of a data packet that was sent (own).
#[derive(Clone, Copy, Debug, PartialEq, Eq)]
pub enum Standing {
    /// Sent, and nothing is known of it.
    Out,
    /// A report said that it was received.
    Reported,
    /// Three later ones were reported and it was not. A report may still come.
    Lost,
}

/// A data packet that was sent. No call gives one out; contracts speak of it.
#[derive(Clone, Copy, PartialEq, Eq)]
pub struct FlightEntry {
    /// Its sequence number.
    pub number: Seq48,
    /// Its standing.
    pub standing: Standing,
}

/// The result of a report.
#[derive(Clone, Copy, Debug, PartialEq, Eq)]
pub struct FlightNews {
    /// How many packets it was the first to report as received without a mark.
    pub acked: u32,
    /// Whether some packet past the recovery mark became lost, or was reported as marked.
    pub congested: bool,
}

/// The data packets sent since the last start or timeout, at most the last 2,048, in the order of sending. Contracts
/// see the list of its entries.
#[derive(Drop)]
pub struct Flight {
    entries: HeapCircularBuffer<FlightEntry>,
    counts: Counts,
}

impl Model for Flight {
    ghost use Rattle.std.specs.Prelude.{List};
    ghost use Rattle.congestion_trait.specs.declared.flight.FlightEntry.{FlightEntry};

    ghost Value = { List FlightEntry };

    ghost view = { λ f. f.entries.items };

    ghost use Rattle.congestion_trait.specs.Walk.{FlightInvariant};

    ghost invariant = { λ f. FlightInvariant f.entries.items f.entries.capacity f.counts };
}

impl Flight {
    /// An empty list. NoMemory if there is no block for 2,048 entries; no later call takes memory.
    pub fn new(alloc: Global) -> Result<Flight, NoMemory>
        ensures { IfOk result (λ flight. flight ≡ []) }
    {
        let entries = HeapCircularBuffer::with_capacity(alloc, CAPACITY)?;
        Ok(Flight {
            entries,
            counts: NOTHING,
        })
    }

    /// Forgets every entry.
    pub fn clear(&mut self)
        ensures { self.new ≡ [] }
    {
        self.entries.clear();
        self.counts = NOTHING;
    }

    /// How many entries are Out.
    pub fn out(&self) -> u32
        ensures { result ≡ pipe_of self.now }
    {
        self.counts.out
    }

    /// Whether the list has a packet of this number that was reported. The cost is that of the entries after it, or of
    /// the whole list.
    pub fn is_reported(&self, number: Seq48) -> bool
        ensures { IsTrue result ↔ Has self.now number Reported }
    {
        self.stands(number, Standing::Reported)
    }

    /// Whether the list has a packet of this number with this standing. The cost is that of the entries after it, or of
    /// the whole list.
    pub fn stands(&self, number: Seq48, standing: Standing) -> bool
        ensures { IsTrue result ↔ Has self.now number standing }
    {
        is_in(&self.entries, &FlightEntry { number, standing })
    }

    /// Notes a packet that was sent. The 2,049th replaces the oldest.
    pub fn sent(&mut self, number: Seq48)
        ensures { self.new ≡ sent self.old number }
    {
        // Gives the prover that the list fits its block.
        let _len = self.entries.len();
        let step = step_from_newest(&self.entries, number);
        let entry = FlightEntry {
            number,
            standing: Standing::Out,
        };
        let driven_out = self.entries.push_back(entry);
        self.counts = self.counts.with_sent(&driven_out, step);
    }

    /// Settles every entry by a report: those that it gives state 0 or 1 are Reported, and those that are still Out
    /// before three Reported ones are Lost (RFC 4341, section 5). `mark` is the recovery mark: what it covers shows no
    /// new congestion. With None every loss and every marked packet does. While numbers are sent in their order, the
    /// cost is that of the report's runs and of the entries from the newest that any report has reached down to the
    /// oldest that is Out or that these runs reach.
    #[inline(always)]
    pub fn report(&mut self, report: &AckReport<'_>, mark: Option<Seq48>) -> FlightNews
        ensures entries { self.new ≡ after_report (state_at report.now.ack report.now.bytes) self.old }
        ensures acked { result.acked ≡ acked_count (state_at report.now.ack report.now.bytes) self.old }
        ensures few { result.acked ≤ 2048 }
        ensures congested { result.congested ≡ is_congested (state_at report.now.ack report.now.bytes) mark self.old }
    {
        if is_unreached(&self.entries, &self.counts, report) {
            return FlightNews {
                acked: 0,
                congested: false,
            };
        }
        self.settle_by(report, mark)
    }

    // The same, if the report may reach an entry that is not Reported. It is a separate function, so that the other case
    // costs no call. While packets arrive in their order, a report says of the oldest such entries that they were
    // received, and of no others.
    #[inline(never)]
    fn settle_by(&mut self, report: &AckReport<'_>, mark: Option<Seq48>) -> FlightNews
        ensures entries { self.new ≡ after_report (state_at report.now.ack report.now.bytes) self.old }
        ensures acked { result.acked ≡ acked_count (state_at report.now.ack report.now.bytes) self.old }
        ensures few { result.acked ≤ 2048 }
        ensures congested { result.congested ≡ is_congested (state_at report.now.ack report.now.bytes) mark self.old }
    {
        // Gives the prover that the list fits its block.
        let len = self.entries.len();
        let settled = self.counts.settled;
        let Some(heard) = received_to(&self.entries, &self.counts, report) else {
            return self.settle_any(report, mark);
        };
        settle_received(&mut self.entries, settled, heard);
        self.counts.out = (len - heard) as u32;
        self.counts.heard = heard;
        self.counts.settled = settled_from(&self.entries, settled);
        FlightNews {
            acked: (heard - settled) as u32,
            congested: false,
        }
    }

    // The same, whatever the report says.
    #[inline(never)]
    fn settle_any(&mut self, report: &AckReport<'_>, mark: Option<Seq48>) -> FlightNews
        ensures entries { self.new ≡ after_report (state_at report.now.ack report.now.bytes) self.old }
        ensures acked { result.acked ≡ acked_count (state_at report.now.ack report.now.bytes) self.old }
        ensures few { result.acked ≤ 2048 }
        ensures congested { result.congested ≡ is_congested (state_at report.now.ack report.now.bytes) mark self.old }
    {
        // Gives the prover that the list fits its block.
        let _len = self.entries.len();
        let walk = settle(&mut self.entries, &self.counts, report, &mark);
        self.counts.out = walk.out;
        self.counts.heard = walk.heard;
        self.counts.settled = settled_from(&self.entries, self.counts.settled);
        FlightNews {
            acked: walk.acked,
            congested: walk.congested,
        }
    }
}

impl Counts {
    // The counts with one more entry, which is Out and `step` steps up from the newest. It may have driven another out.
    fn with_sent(&self, driven_out: &Option<FlightEntry>, step: u64) -> Counts
        requires few { self.now.out ≤ 2048 }
        ensures out { result.out ≡ (if was_out driven_out.now then self.now.out else self.now.out + 1) }
        ensures settled { result.settled ≡ self.now.settled - length (option_to_list driven_out.now) }
        ensures heard { result.heard ≡ self.now.heard - length (option_to_list driven_out.now) }
        ensures span { result.span < 2 ^ 48 → result.span ≡ self.now.span + step }
    {
        Counts {
            out: if was_out(driven_out) {
                self.out
            } else {
                self.out + 1
            },
            settled: self.settled.saturating_sub(count_of(driven_out)),
            heard: self.heard.saturating_sub(count_of(driven_out)),
            span: self.span.saturating_add(step),
        }
    }
}

// Whether an entry is in the list, from the newest on.
fn is_in(entries: &HeapCircularBuffer<FlightEntry>, entry: &FlightEntry) -> bool
    ensures { IsTrue result ↔ Contains entries.now.items entry.now }
{
    let (older, newer) = entries.as_slices();
    is_among(newer, entry) || is_among(older, entry)
}

// Whether an entry is among these, from the newest on.
fn is_among(entries: &[FlightEntry], entry: &FlightEntry) -> bool
    ensures { IsTrue result ↔ Contains entries.now entry.now }
{
    let mut left = entries;
    while let Some((newest, older)) = left.split_last() {
        if newest == entry {
            return true;
        }
        left = older;
    }
    false
}

// How many steps up a number is from the newest entry's.
fn step_from_newest(entries: &HeapCircularBuffer<FlightEntry>, number: Seq48) -> u64
    ensures near { (span : ℕ) → AreNear span (numbers entries.now.items)
        → AreNear (span + result) (numbers entries.now.items ++ number ∷ []) }
{
    // Gives the prover that the number is below 2^48.
    let _number = number.get();
    match entries.back() {
        Some(newest) => newest.number.distance(number),
        None => 0,
    }
}

// How many entries left the list.
fn count_of(driven_out: &Option<FlightEntry>) -> usize
    ensures { result ≡ length (option_to_list driven_out.now) }
{
    match driven_out {
        Some(_) => 1,
        None => 0,
    }
}

// Whether an entry left the list while it was Out.
fn was_out(driven_out: &Option<FlightEntry>) -> bool
    ensures { result ≡ was_out driven_out.now }
{
    match driven_out {
        Some(entry) => entry.standing == Standing::Out,
        None => false,
    }
}
