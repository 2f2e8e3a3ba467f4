//! What the Ack Vectors of a packet report.
ghost use Rattle.std.specs.Prelude.{◌≡◌, ◌^◌, ◌≤◌, ◌↔◌, ◌<◌, ◌+◌, ◌++◌, ℕ, List, [], length, IsNone};
ghost use Rattle.dccp_options.specs.Vectors.{ack_vectors, report_of, state_of, run_length, states, state_at, runs_of, vector_bytes, HavePassed};

use crate::joined::JoinedBytes;
use crate::list::OptList;
use seq_circle::Seq48;
use std::marker::Model;

/// A run of numbers that have one state: one byte of an Ack Vector (RFC 4340, section 11.4).
#[derive(Clone, Copy, Debug, PartialEq, Eq)]
pub struct Run {
    /// The run's highest number.
    pub hi: Seq48,
    /// How many numbers the run covers, from `hi` downwards: 1 to 64.
    pub count: u8,
    /// Their state: 0 received, 1 received ECN marked, 3 not yet received. The reserved 2 is read as 3.
    pub state: u8,
}

/// What a packet's Ack Vectors say of the numbers from its acknowledgement number downwards; several vectors continue
/// each other (RFC 4340, section 11.4). Contracts see the acknowledgement number and the vectors' bytes.
#[derive(Drop)]
pub struct AckReport<'a> {
    ack: Seq48,
    bytes: JoinedBytes<'a>,
}

impl<'a> Model for AckReport<'a> {
    ghost use Rattle.std.specs.Prelude.{◌≤◌, length};
    ghost use Rattle.dccp_options.specs.Vectors.{VectorReport};
    ghost use Rattle.dccp_options.specs.Left.{bytes_left};

    ghost Value = { VectorReport };

    ghost view = { λ report. record { ack = report.ack; bytes = bytes_left report.bytes } };

    ghost invariant = { λ report. length (bytes_left report.bytes) ≤ 1008 };
}

/// The runs of a report that are still to come, from the highest down: an iterator. Contracts see the list of them.
#[derive(Drop)]
pub struct ReportRuns<'a> {
    hi: Seq48,
    bytes: JoinedBytes<'a>,
}

impl<'a> Model for ReportRuns<'a> {
    ghost use Rattle.std.specs.Prelude.{List};
    ghost use Rattle.dccp_options.specs.declared.report.Run.{Run};
    ghost use Rattle.dccp_options.specs.Vectors.{runs_of};
    ghost use Rattle.dccp_options.specs.Left.{bytes_left};

    ghost Value = { List Run };

    ghost view = { λ runs. runs_of runs.hi (bytes_left runs.bytes) };
}

// The state in a byte's upper two bits.
fn state_of(byte: u8) -> u8
    ensures { result ≡ state_of byte }
{
    match byte / 64 {
        2 => 3,
        state => state,
    }
}

// How many numbers a byte covers.
fn run_length(byte: u8) -> u8
    ensures { result ≡ run_length byte }
{
    byte % 64 + 1
}

// Passes the first bytes of a vector whose runs lie entirely within the next `most` numbers. Returns the other bytes,
// and how many numbers were covered.
fn past_bytes<'a>(vector: &'a [u8], most: u64) -> (&'a [u8], u64)
    ensures past { (passed : List ℕ) × (vector.now ≡ passed ++ result.0.now) × (result.1 ≡ length (states passed)) }
    ensures within { result.1 ≤ most }
{
    let mut left = vector;
    let mut numbers = 0;
    while let Some((byte, rest)) = left.split_first() {
        let count = u64::from(run_length(*byte));
        if most - numbers < count {
            return (left, numbers);
        }
        numbers += count;
        left = rest;
    }
    (left, numbers)
}

impl<'a> AckReport<'a> {
    /// What the Ack Vectors among the options of a packet report, if `ack` is its acknowledgement number. None exactly
    /// if there is no Ack Vector; one without a byte is a report that gives no number a state. If a fault ends the
    /// list, the vectors before it still count; the end answers the fault by a Reset anyway.
    pub fn of(ack: Seq48, options: OptList<'a>) -> Option<AckReport<'a>>
        ensures none { IsNone result ↔ (ack_vectors options.entry ≡ []) }
        ensures value { result ≡ report_of ack options.entry }
    {
        let bytes = JoinedBytes::of(options.cursor())?;
        Some(AckReport { ack, bytes })
    }

    /// The same for a reader that has come to the first Ack Vector: `vector` is its data, and `following` are the
    /// options after it. Together the vectors have at most the 1,008 bytes of an area.
    pub fn from_first(ack: Seq48, vector: &'a [u8], following: OptList<'a>) -> AckReport<'a>
        requires { length vector.now + length (vector_bytes following) ≤ 1008 }
        ensures { result ≡ record { ack = ack; bytes = vector.now ++ vector_bytes following.entry } }
    {
        AckReport {
            ack,
            bytes: JoinedBytes::from_first(vector, following.cursor()),
        }
    }

    /// The state of the number, or None if the vectors do not reach it: 0 received, 1 received ECN marked, 3 not yet
    /// received.
    pub fn state(&self, n: Seq48) -> Option<u8>
        ensures { result ≡ state_at self.now.ack self.now.bytes n }
    {
        let mut below = n.distance(self.ack);
        for byte in self.bytes {
            let count = u64::from(run_length(byte));
            if below < count {
                return Some(state_of(byte));
            }
            below -= count;
        }
        None
    }

    /// The acknowledgement number: the highest number that the report can say something of.
    pub fn ack(&self) -> Seq48
        ensures value { result ≡ self.now.ack }
        ensures bytes_fit { length self.now.bytes ≤ 1008 }
    {
        self.ack
    }

    /// The runs of the vectors, one a byte, from the acknowledgement number downwards.
    pub fn runs(&self) -> ReportRuns<'a>
        ensures value { result ≡ runs_of self.now.ack self.now.bytes }
        ensures ack_fits { self.now.ack < 2 ^ 48 }
        ensures bytes_fit { length self.now.bytes ≤ 1008 }
    {
        // `get` gives the prover that the number is below 2^48.
        let _number = self.ack.get();
        ReportRuns {
            hi: self.ack,
            bytes: self.bytes,
        }
    }
}

impl<'a> ReportRuns<'a> {
    /// Passes the runs that lie entirely within the next `most` numbers, and returns how many numbers they cover (own).
    /// It stops at the end of the current vector, so that a run costs one look at its byte; `next` continues with the
    /// next vector.
    pub fn pass(&mut self, most: u64) -> u64
        ensures past { HavePassed self.old result self.new }
        ensures within { result ≤ most }
    {
        // `get` gives the prover that the number is below 2^48.
        let _number = self.hi.get();
        let (vector, numbers) = past_bytes(self.bytes.vector, most);
        self.bytes.vector = vector;
        self.hi = self.hi.sub(numbers);
        numbers
    }
}

impl<'a> Iterator for ReportRuns<'a> {
    ghost use Rattle.std.specs.Iterator.{YieldsFirst, item_count};

    type Item = Run;

    ghost next_gives = { YieldsFirst (λ runs. runs) };

    ghost remaining = { item_count (λ runs. runs) };

    #[inline(always)]
    fn next(&mut self) -> Option<Run> {
        let byte = self.bytes.next()?;
        let run = Run {
            hi: self.hi,
            count: run_length(byte),
            state: state_of(byte),
        };
        self.hi = self.hi.sub(u64::from(run.count));
        Some(run)
    }
}
