//! The edits of the runs: where a number goes, what it joins, and what a raised floor leaves.
ghost use Rattle.std.specs.Prelude.{◌≡◌, ℕ, ◌+◌, ◌-◌, ◌^◌, ◌<◌, ◌≤◌, length, take, drop, slice_index_or, true, filter, vec_len, vec_capacity};
ghost use Rattle.std.specs.Bool.{OnTrue, OnFalse};
ghost use Rattle.seq_circle.specs.Circle.{distance, IsBefore};
ghost use Rattle.run_list.specs.MarkedSet.{has, is_from};
ghost use Rattle.run_list.specs.Runs.{AddsOne, AreLaid, SameRoom, Touches, bound_after, numbers_of};

use crate::walking::Stretch;
use seq_circle::Seq48;

// The place of the first run that `n` touches, is in, or is above; the length if there is none.
fn place_for(runs: &[Stretch], floor: Seq48, n: Seq48) -> usize
    requires { distance floor n < 2048 }
    ensures within { result ≤ length runs.now }
    ensures above { distance floor n < bound_after floor 2048 (take result runs.now) }
    ensures touches { (s : Stretch) → result < length runs.now → Touches floor n (slice_index_or runs.now result s) }
{
    let place = floor.distance(n);
    for (at, run) in runs.iter().enumerate() {
        if floor.distance(run.hi) <= place + u64::from(run.count) {
            return at;
        }
    }
    runs.len()
}

// Puts a run of `n` alone at `at`.
fn begin_run(runs: &mut Vec<Stretch>, floor: Seq48, at: usize, n: Seq48)
    requires within { at ≤ length runs.old.items }
    requires laid { AreLaid floor 2048 runs.old.items }
    requires above { distance floor n < bound_after floor 2048 (take at runs.old.items) }
    requires below { AreLaid floor (distance floor n - 1) (drop at runs.old.items) }
    requires room { vec_capacity runs.old ≡ 1024 }
    ensures adds { AddsOne floor n runs.old runs.new }
    ensures room { vec_capacity runs.new ≡ 1024 }
{
    let _ = runs.insert(at, Stretch { hi: n, count: 1 });
}

// Adds `n` to the top of the run at `at`, which ends right below it.
fn extend_up(runs: &mut Vec<Stretch>, floor: Seq48, at: usize, n: Seq48)
    requires within { at < length runs.old.items }
    requires laid { AreLaid floor 2048 runs.old.items }
    requires above { distance floor n < bound_after floor 2048 (take at runs.old.items) }
    requires right_below { (s : Stretch)
        → distance floor (slice_index_or runs.old.items at s).hi + 1 ≡ distance floor n }
    ensures adds { AddsOne floor n runs.old runs.new }
    ensures room { SameRoom runs.old runs.new }
{
    let count = runs[at].count + 1;
    runs[at] = Stretch { hi: n, count };
}

// Adds `n` to the bottom of the run at `at`, which begins right above it, and joins this run with the next if that ends
// right below `n`.
fn extend_down(runs: &mut Vec<Stretch>, floor: Seq48, at: usize, n: Seq48)
    requires within { at < length runs.old.items }
    requires laid { AreLaid floor 2048 runs.old.items }
    requires above { distance floor n < bound_after floor 2048 (take at runs.old.items) }
    requires right_above { (s : Stretch)
        → distance floor n + (slice_index_or runs.old.items at s).count ≡ distance floor (slice_index_or runs.old.items at s).hi }
    ensures adds { AddsOne floor n runs.old runs.new }
    ensures room { SameRoom runs.old runs.new }
{
    let run = runs[at];
    if at + 1 < runs.len() {
        let next = runs[at + 1];
        if floor.distance(next.hi) + 1 == floor.distance(n) {
            runs[at] = Stretch {
                hi: run.hi,
                count: run.count + 1 + next.count,
            };
            runs.remove(at + 1);
            return;
        }
    }
    runs[at] = Stretch {
        hi: run.hi,
        count: run.count + 1,
    };
}

// Adds `n` if it is missing. Returns whether it was added.
pub(crate) fn put(runs: &mut Vec<Stretch>, floor: Seq48, n: Seq48) -> bool
    requires near { distance floor n < 2048 }
    requires laid { AreLaid floor 2048 runs.old.items }
    requires room { vec_capacity runs.old ≡ 1024 }
    ensures room { vec_capacity runs.new ≡ 1024 }
    ensures adds { OnTrue result (AddsOne floor n runs.old runs.new) }
    ensures there { OnFalse result (has (numbers_of runs.old.items) n ≡ true) }
    ensures stays { OnFalse result (runs.new.items ≡ runs.old.items) }
{
    let at = place_for(runs, floor, n);
    if at == runs.len() {
        begin_run(runs, floor, at, n);
        return true;
    }
    let run = runs[at];
    let hi = floor.distance(run.hi);
    let place = floor.distance(n);
    if hi + 1 < place {
        begin_run(runs, floor, at, n);
    } else if hi + 1 == place {
        extend_up(runs, floor, at, n);
    } else if hi == place + u64::from(run.count) {
        extend_down(runs, floor, at, n);
    } else {
        return false;
    }
    true
}

// Removes the numbers below `to` from the runs above `floor`.
pub(crate) fn cut(runs: &mut Vec<Stretch>, floor: Seq48, to: Seq48)
    requires before { IsBefore floor to }
    requires laid { AreLaid floor 2048 runs.old.items }
    ensures laid { AreLaid to 2048 runs.new.items }
    ensures room { SameRoom runs.old runs.new }
    ensures numbers { numbers_of runs.new.items ≡ filter (is_from to) (numbers_of runs.old.items) }
{
    let rise = floor.distance(to);
    while let Some(&last) = runs.last() {
        let hi = floor.distance(last.hi);
        if rise <= hi {
            let end = runs.len() - 1;
            let count = u64::from(last.count).min(hi - rise + 1) as u16;
            runs[end] = Stretch { hi: last.hi, count };
            return;
        }
        runs.pop();
    }
}
