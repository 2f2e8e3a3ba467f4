//! The set as a plain row of runs.
ghost use Rattle.std.specs.Prelude.{◌≡◌, ◌≢◌, IsTrue, ℕ, ◌<◌, ◌↔◌, IfOk, if◌then◌else◌};
ghost use Rattle.run_list.specs.MarkedSet.{MarkedSet, IsFrom, IsSound, has, empty_from, raised, marked, joined_by, answer_to};
ghost use Rattle.seq_circle.specs.Circle.{distance};

use crate::answers::Marked;
use crate::plain_edits::{cut, put};
use crate::walking::Stretch;
use seq_circle::{NoMemory, Seq48};
use std::alloc::Global;
use std::marker::Model;

// How far below a marked number its floor may lie.
const REACH: u64 = 2_047;

// At most this many runs, with a gap between any two, fit into 2,048 successive numbers.
const RUNS: usize = 1_024;

/// The same set as a `RunList`, kept as a row of runs instead of a linked list: a run that begins or joins another
/// moves all runs below it. It is here so that `RunList` can be compared with it.
#[derive(Drop)]
pub struct PlainRuns {
    floor: Seq48,
    runs: Vec<Stretch>,
}

impl Model for PlainRuns {
    ghost use Rattle.std.specs.Prelude.{◌≡◌, ◌<◌, ◌^◌, vec_capacity};
    ghost use Rattle.run_list.specs.MarkedSet.{MarkedSet};
    ghost use Rattle.run_list.specs.Runs.{AreLaid, numbers_of};

    ghost Value = { MarkedSet };

    ghost view = { λ r. record { floor = r.floor; numbers = numbers_of r.runs.items } };

    ghost invariant = { λ r. (r.floor < 2 ^ 48) × AreLaid r.floor 2048 r.runs.items × (vec_capacity r.runs ≡ 1024) };
}

impl PlainRuns {
    /// An empty set with floor 0, and room for every set that can follow. `NoMemory` comes only here.
    pub fn new(alloc: Global) -> Result<PlainRuns, NoMemory>
        ensures { IfOk result (λ set. set ≡ empty_from 0) }
    {
        let (Ok(runs), Some(floor)) = (Vec::with_capacity(alloc, RUNS), Seq48::new(0)) else {
            return Err(NoMemory);
        };
        Ok(PlainRuns { floor, runs })
    }

    /// Empties the set and sets its floor to `first`.
    pub fn start(&mut self, first: Seq48)
        ensures { self.new ≡ empty_from first }
    {
        self.runs.clear();
        self.floor = first;
    }

    /// Adds `n`. The answer is `BelowFloor` if `n` is neither the floor nor ahead of it by less than half the circle,
    /// `Again` if it is in the set, and otherwise `New`. If it is New and the floor is before `n - 2047`, the floor
    /// first rises to that. The other answers change nothing.
    pub fn mark(&mut self, n: Seq48) -> Marked
        ensures set { self.new ≡ marked self.old n }
        ensures answer { result ≡ answer_to self.old n }

        ensures below_floor { (result ≡ Marked.BelowFloor) ↔ ¬ IsFrom self.old.floor n }
        ensures again { (result ≡ Marked.Again) ↔ (IsFrom self.old.floor n × IsTrue (has self.old.numbers n)) }
        ensures unchanged { result ≢ Marked.New → self.new ≡ self.old }
    {
        if !n.is_from(self.floor) {
            return Marked::BelowFloor;
        }
        let place = self.floor.distance(n);
        if place > REACH {
            self.raise(n.sub(REACH));
        }
        self.join(n)
    }

    // Adds `n`, which lies at most 2,047 above the floor.
    fn join(&mut self, n: Seq48) -> Marked
        requires { distance self.old.floor n < 2048 }
        ensures set { self.new ≡ (if has self.old.numbers n then self.old else joined_by self.old n) }
        ensures answer { result ≡ (if has self.old.numbers n then Marked.Again else Marked.New) }
    {
        if put(&mut self.runs, self.floor, n) {
            Marked::New
        } else {
            Marked::Again
        }
    }

    /// Raises the floor to `to` if it is before that. Numbers below the floor leave the set.
    pub fn raise(&mut self, to: Seq48)
        ensures { self.new ≡ raised self.old to }
    {
        if self.floor.before(to) {
            cut(&mut self.runs, self.floor, to);
            self.floor = to;
        }
    }

    /// The floor: no number before it is in the set, and none is marked.
    pub fn floor(&self) -> Seq48
        ensures value { result ≡ self.now.floor }
        ensures sound { IsSound self.now }
    {
        self.floor
    }
}
