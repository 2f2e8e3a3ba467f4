//! What every set of runs does, however it is kept, and a list of calls to one.
ghost use Rattle.std.specs.Prelude.{◌≡◌, ◌≢◌, ◌+◌, ◌^◌, ◌<◌, ◌↔◌, IsTrue, length};
ghost use Rattle.run_list.specs.MarkedSet.{MarkedSet, IsFrom, IsSound, has, empty_from, raised, marked, answer_to};
ghost use Rattle.run_list.specs.Replay.{set_after, replayed, new_by, count_of_new};

use crate::answers::Marked;
use crate::list::RunList;
use crate::plain::PlainRuns;
use seq_circle::Seq48;

/// A set of sequence numbers with a floor, however it is kept: no number below the floor is in it, and a new number
/// pushes the floor up to 2,047 below itself (own). No call takes memory.
pub trait Runs {
    /// The set, which only contracts see.
    ghost set: { Self → MarkedSet };

    /// Empties the set and sets its floor to `first`.
    fn start(&mut self, first: Seq48)
        ensures { set self.new ≡ empty_from first };

    /// Adds `n`. The answer is `BelowFloor` if `n` is neither the floor nor ahead of it by less than half the circle,
    /// `Again` if it is in the set, and otherwise `New`. If it is New and the floor is before `n - 2047`, the floor
    /// first rises to that. The other answers change nothing.
    fn mark(&mut self, n: Seq48) -> Marked
        ensures set { set self.new ≡ marked (set self.old) n }
        ensures answer { result ≡ answer_to (set self.old) n }
        ensures below_floor { (result ≡ Marked.BelowFloor) ↔ ¬ IsFrom (set self.old).floor n }
        ensures again { (result ≡ Marked.Again) ↔ (IsFrom (set self.old).floor n × IsTrue (has (set self.old).numbers n)) }
        ensures unchanged { result ≢ Marked.New → set self.new ≡ set self.old };

    /// Raises the floor to `to` if it is before that. Numbers below the floor leave the set.
    fn raise(&mut self, to: Seq48)
        ensures { set self.new ≡ raised (set self.old) to };

    /// The floor: no number before it is in the set, and none is marked.
    fn floor(&self) -> Seq48
        ensures value { result ≡ (set self.now).floor }
        ensures sound { IsSound (set self.now) };
}

impl Runs for RunList {
    ghost set = { λ r. r };

    fn start(&mut self, first: Seq48) {
        RunList::start(self, first);
    }

    fn mark(&mut self, n: Seq48) -> Marked {
        RunList::mark(self, n)
    }

    fn raise(&mut self, to: Seq48) {
        RunList::raise(self, to);
    }

    fn floor(&self) -> Seq48 {
        RunList::floor(self)
    }
}

impl Runs for PlainRuns {
    ghost set = { λ r. r };

    fn start(&mut self, first: Seq48) {
        PlainRuns::start(self, first);
    }

    fn mark(&mut self, n: Seq48) -> Marked {
        PlainRuns::mark(self, n)
    }

    fn raise(&mut self, to: Seq48) {
        PlainRuns::raise(self, to);
    }

    fn floor(&self) -> Seq48 {
        PlainRuns::floor(self)
    }
}

/// A call to a set of runs.
#[derive(Clone, Copy)]
pub enum RunCall {
    /// Empties the set and sets its floor.
    Start(Seq48),
    /// Adds a number.
    Mark(Seq48),
    /// Raises the floor.
    Raise(Seq48),
}

// Makes one call, and returns 1 if it marked a new number, otherwise 0.
fn replay_call<R: Runs>(runs: &mut R, call: RunCall) -> u32
    ensures set { R.set runs.new ≡ set_after call (R.set runs.old) }
    ensures count { result ≡ new_by call (R.set runs.old) }
    ensures few { result < 2 }
{
    match call {
        RunCall::Start(first) => runs.start(first),
        RunCall::Raise(to) => runs.raise(to),
        RunCall::Mark(n) => {
            if runs.mark(n) == Marked::New {
                return 1;
            }
        }
    }
    0
}

/// Makes the calls in order, and returns how many marks were New. The result, the set and its floor depend on the set
/// before and on the calls, and not on how the set is kept.
pub fn replay_runs<R: Runs>(runs: &mut R, calls: &[RunCall]) -> u32
    requires few { length calls.now < 2 ^ 32 }
    ensures set { R.set runs.new ≡ replayed calls.now (R.set runs.old) }
    ensures count { result ≡ count_of_new calls.now (R.set runs.old) }
{
    let mut new = 0;
    for call in calls {
        new += replay_call(runs, *call);
    }
    new
}
