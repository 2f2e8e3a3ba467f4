//! Reads a report at falling numbers, without starting again at each.
ghost use Rattle.std.specs.Prelude.{◌≡◌, ℕ, ◌+◌, ◌^◌, ◌<◌, ◌≤◌, ◌⊎◌, List, [], Some, None, IfNone, IsNone, IsTrue, length, slice_get};
ghost use Rattle.seq_circle.specs.Circle.{distance};
ghost use Rattle.dccp_options.specs.Vectors.{state_at, states};
ghost use Rattle.congestion_trait.specs.Walk.{IsAt};

use dccp_options::{AckReport, ReportRuns};
use seq_circle::Seq48;

// How many numbers there are.
const CIRCLE: u64 = 1 << 48;

// How many numbers a report reaches at most: 1,008 bytes of options with 64 each.
const MOST_REACHED: u64 = 64_512;

// One run of a report, and those after it. Places count down from the report's acknowledgement number.
#[derive(Drop)]
pub struct Cursor<'a> {
    start: u64,
    end: u64,
    state: u8,
    left: ReportRuns<'a>,
    // Nothing is left. Known only once that was asked for, which costs a look at all options.
    ended: bool,
}

impl<'a> Cursor<'a> {
    // At a report's first run, or at none if it has none.
    pub fn new(report: &AckReport<'a>) -> Cursor<'a>
        ensures begins { result.start ≡ 0 }
        ensures stands { IsAt (states report.now.bytes) result.start result.end result.state result.left result.ended }
        ensures few { length report.now.bytes ≤ 1008 }
    {
        let mut left = report.runs();
        match left.next() {
            Some(run) => Cursor {
                start: 0,
                end: u64::from(run.count),
                state: run.state,
                left,
                ended: false,
            },
            None => Cursor {
                start: 0,
                end: 0,
                state: 0,
                left,
                ended: true,
            },
        }
    }

    // Starts again if the place was passed.
    fn stand_at_or_before(&mut self, report: &AckReport<'a>, place: u64)
        requires stands { IsAt (states report.now.bytes) self.old.start self.old.end self.old.state self.old.left self.old.ended }
        ensures before { self.new.start ≤ place }
        ensures stands { IsAt (states report.now.bytes) self.new.start self.new.end self.new.state self.new.left self.new.ended }
    {
        if place < self.start {
            *self = Cursor::new(report);
        }
    }

    // Moves to the first run that reaches past a place, or to the end of the current vector. It is at no run until
    // `next`.
    fn pass(&mut self, place: u64)
        requires { self.old.end ≤ place }
        ensures before { self.new.end ≤ place }
        ensures none { self.new.start ≡ self.new.end }
        ensures shorter { length self.new.left ≤ length self.old.left }
        ensures stands { (all : List ℕ) → IsAt all self.old.start self.old.end self.old.state self.old.left self.old.ended
            → IsAt all self.new.start self.new.end self.new.state self.new.left self.new.ended }
    {
        self.start = self.end + self.left.pass(place - self.end);
        self.end = self.start;
    }

    // The state that the report gives a number. Runs are passed once while numbers fall.
    pub fn state(&mut self, report: &AckReport<'a>, number: Seq48) -> Option<u8>
        requires stands { IsAt (states report.now.bytes) self.old.start self.old.end self.old.state self.old.left self.old.ended }
        ensures value { result ≡ state_at report.now.ack report.now.bytes number }
        ensures none { IfNone result ((place : ℕ) → distance number report.now.ack ≤ place → slice_get (states report.now.bytes) place ≡ None) }
        ensures stands { IsAt (states report.now.bytes) self.new.start self.new.end self.new.state self.new.left self.new.ended }
    {
        let place = number.distance(report.ack());
        self.stand_at_or_before(report, place);
        while self.end <= place {
            if self.ended {
                return None;
            }
            self.pass(place);
            match self.left.next() {
                Some(run) => {
                    self.end += u64::from(run.count);
                    self.state = run.state;
                }
                None => {
                    self.ended = true;
                    return None;
                }
            }
        }
        Some(self.state)
    }

    // Whether the run at which it is says that this number was received without a mark.
    pub fn has_received(&self, report: &AckReport<'a>, number: Seq48) -> bool
        requires { IsAt (states report.now.bytes) self.now.start self.now.end self.now.state self.now.left self.now.ended }
        ensures { IsTrue result → state_at report.now.ack report.now.bytes number ≡ Some 0 }
    {
        let place = number.distance(report.ack());
        self.start <= place && place < self.end && self.state == 0
    }
}

// Whether a report gives no state to this number, nor to any that lies at most `span` steps after it.
pub fn is_out_of_reach(report: &AckReport<'_>, number: Seq48, span: u64) -> bool
    ensures value { IsTrue result → span + 64512 ≤ distance number report.now.ack }
    ensures few { length report.now.bytes ≤ 1008 }
{
    span.saturating_add(MOST_REACHED) <= number.distance(report.ack())
}

// Whether a report that gives no state to this number gives none to any that lies at most `span` steps before it.
pub fn ends_before(report: &AckReport<'_>, state: Option<u8>, number: Seq48, span: u64) -> bool
    ensures { IsTrue result → IsNone state × (distance number report.now.ack + span < 2 ^ 48) }
{
    state.is_none() && span < CIRCLE - number.distance(report.ack())
}
