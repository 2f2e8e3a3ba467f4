//! The set of marked numbers, and the floor below which none is kept. The room for runs is a fact of the type's
//! invariant, and not of the value that contracts see.
ghost use Rattle.std.specs.Prelude.{◌≡◌, ◌≢◌, IsTrue, ℕ, ◌<◌, ◌↔◌, IfOk, if◌then◌else◌};
ghost use Rattle.run_list.specs.MarkedSet.{MarkedSet, IsFrom, IsSound, has, empty_from, raised, marked, joined_by, answer_to};
ghost use Rattle.seq_circle.specs.Circle.{distance};
ghost use Rattle.run_list.specs.Stretches.{stretches};

use crate::answers::Marked;
use crate::hints::Hints;
use crate::linked::{NodeList, all_free, clear, cut, put};
use crate::walking::Walk;
use seq_circle::{NoMemory, Seq48};
use std::alloc::Global;
use std::marker::Model;

// How far below a marked number its floor may lie.
const REACH: u64 = 2_047;

/// A set of sequence numbers with a floor: no number below the floor is in it, and a new number pushes the floor up to
/// 2,047 below itself (own). Contracts see the floor, and the numbers from the newest down.
///
/// `start` begins a connection's numbers, `mark` adds one, `raise` forgets those that the peer knows of, and `walk`
/// shows what is there. No call after `new` takes memory.
#[derive(Drop)]
pub struct RunList {
    floor: Seq48,
    runs: NodeList,
    hints: Hints,
}

impl Model for RunList {
    ghost use Rattle.std.specs.Prelude.{◌<◌, ◌^◌};
    ghost use Rattle.run_list.specs.MarkedSet.{MarkedSet};
    ghost use Rattle.run_list.specs.Runs.{AreLaid, numbers_of};
    ghost use Rattle.run_list.specs.Linked.{AreLinked, linked_runs};

    ghost Value = { MarkedSet };

    ghost view = { λ r. record { floor = r.floor; numbers = numbers_of (linked_runs r.runs) } };

    ghost invariant = { λ r. (r.floor < 2 ^ 48) × AreLaid r.floor 2048 (linked_runs r.runs)
        × AreLinked r.runs };
}

impl RunList {
    /// An empty set with floor 0, and room for every set that can follow. `NoMemory` comes only here.
    pub fn new(alloc: Global) -> Result<RunList, NoMemory>
        ensures { IfOk result (λ set. set ≡ empty_from 0) }
    {
        let floor = Seq48::new(0).ok_or(NoMemory)?;
        let runs = all_free(alloc)?;
        Ok(RunList {
            floor,
            runs,
            hints: Hints::new(),
        })
    }

    /// Empties the set and sets its floor to `first`.
    pub fn start(&mut self, first: Seq48)
        ensures { self.new ≡ empty_from first }
    {
        clear(&mut self.runs);
        self.floor = first;
    }

    /// Adds `n`. The answer is `BelowFloor` if `n` is neither the floor nor ahead of it by less than half the circle,
    /// `Again` if it is in the set, and otherwise `New`. If it is New and the floor is before `n - 2047`, the floor
    /// first rises to that. The other answers change nothing.
    pub fn mark(&mut self, n: Seq48) -> Marked
        ensures set { self.new ≡ marked self.old n }
        ensures answer { result ≡ answer_to self.old n }

        ensures below_floor { (result ≡ Marked.BelowFloor) ↔ ¬ IsFrom self.old.floor n }
        ensures again { (result ≡ Marked.Again) ↔ (IsFrom self.old.floor n × IsTrue (has self.old.numbers n)) }
        ensures unchanged { result ≢ Marked.New → self.new ≡ self.old }
    {
        if !n.is_from(self.floor) {
            return Marked::BelowFloor;
        }
        let place = self.floor.distance(n);
        if place > REACH {
            self.raise(n.sub(REACH));
        }
        self.join(n)
    }

    // Adds `n`, which lies at most 2,047 above the floor.
    fn join(&mut self, n: Seq48) -> Marked
        requires { distance self.old.floor n < 2048 }
        ensures set { self.new ≡ (if has self.old.numbers n then self.old else joined_by self.old n) }
        ensures answer { result ≡ (if has self.old.numbers n then Marked.Again else Marked.New) }
    {
        if put(&mut self.runs, &mut self.hints, self.floor, n) {
            Marked::New
        } else {
            Marked::Again
        }
    }

    /// Raises the floor to `to` if it is before that. Numbers below the floor leave the set.
    pub fn raise(&mut self, to: Seq48)
        ensures { self.new ≡ raised self.old to }
    {
        if self.floor.before(to) {
            cut(&mut self.runs, &mut self.hints, self.floor, to);
            self.floor = to;
        }
    }

    /// The floor: no number before it is in the set, and none is marked.
    pub fn floor(&self) -> Seq48
        ensures value { result ≡ self.now.floor }
        ensures sound { IsSound self.now }
    {
        self.floor
    }

    /// The set's maximal runs of successive numbers, from the newest down.
    pub fn walk(&self) -> Walk<'_>
        ensures { result ≡ stretches self.now.numbers }
    {
        Walk::over(&self.runs.nodes, self.runs.first)
    }
}
