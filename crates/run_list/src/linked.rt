//! The runs as they are linked: where a number goes, what it joins, and what a raised floor leaves.
//!
//! The chain is walked down to find a number's place, from the newest run or from a hint: the usual mark is at or near
//! the newest.
ghost use Rattle.std.specs.Prelude.{◌≡◌, [], ◌+◌, ◌-◌, ◌^◌, ◌<◌, ◌≤◌, filter, slice_set, true, length, IfOk};
ghost use Rattle.std.specs.Bool.{OnTrue, OnFalse};
ghost use Rattle.seq_circle.specs.Circle.{distance, IsBefore};
ghost use Rattle.run_list.specs.MarkedSet.{has, is_from};
ghost use Rattle.run_list.specs.Runs.{AreLaid, numbers_of, Adds};
ghost use Rattle.run_list.specs.Linked.{AreLinked, IsChained, IsParted, IsPlaceFor, IsPlaceBelow, Points, runs_from, linked_runs};
ghost use Rattle.run_list.specs.Nodes.{all_nodes, node_at};

use crate::hints::{Hints, begin};
use crate::nodes::{NONE, Node, NodeTable};
use seq_circle::{NoMemory, Seq48};
use std::alloc::Global;

// The nodes, with the first used one and the first free one.
#[derive(Drop)]
pub struct NodeList {
    pub nodes: NodeTable,
    pub first: u16,
    pub free: u16,
}

// A place in the chain of used nodes: the node that is there, and the one before it.
#[derive(Clone, Copy)]
pub struct ChainPlace {
    pub before: u16,
    pub at: u16,
}

// All nodes are free.
pub(crate) fn all_free(alloc: Global) -> Result<NodeList, NoMemory>
    ensures linked { IfOk result (λ made. AreLinked made) }
    ensures empty { IfOk result (λ made. linked_runs made ≡ []) }
{
    let nodes = NodeTable::new(alloc)?;
    Ok(NodeList {
        nodes,
        first: NONE,
        free: 0,
    })
}

// The place of the first run that `n` touches, is in, or is above.
fn place_for(runs: &NodeList, hints: &mut Hints, floor: Seq48, n: Seq48) -> ChainPlace
    requires near { distance floor n < 2048 }
    requires linked { AreLinked runs.now }
    requires laid { AreLaid floor 2048 (linked_runs runs.now) }
    ensures place { IsPlaceFor floor n (all_nodes runs.now.nodes) runs.now.first result.before result.at }
{
    let place = floor.distance(n);
    let ChainPlace { mut before, mut at } = begin(runs, hints, floor, n);
    while at < NONE {
        let node = runs.nodes.get(at);
        if floor.distance(node.hi) <= place + u64::from(node.count) {
            break;
        }
        hints.note(node.hi, at);
        before = at;
        at = node.next;
    }
    ChainPlace { before, at }
}

// The place of the first run that ends below a number.
fn place_below(runs: &NodeList, hints: &mut Hints, floor: Seq48, to: Seq48) -> ChainPlace
    requires linked { AreLinked runs.now }
    ensures place { IsPlaceBelow floor (distance floor to) (all_nodes runs.now.nodes) runs.now.first result.before result.at }
{
    let rise = floor.distance(to);
    let ChainPlace { mut before, mut at } = begin(runs, hints, floor, to);
    while at < NONE {
        let node = runs.nodes.get(at);
        if floor.distance(node.hi) < rise {
            break;
        }
        hints.note(node.hi, at);
        before = at;
        at = node.next;
    }
    ChainPlace { before, at }
}

// Makes the node `to` follow `before`, or come first if `before` is none.
fn point(runs: &mut NodeList, before: u16, to: u16)
    requires size { length (all_nodes runs.old.nodes) ≡ 1024 }
    requires within { before ≤ 1024 }
    requires made { before < 1024 → before < length runs.old.nodes }
    ensures points { Points (all_nodes runs.old.nodes) (all_nodes runs.new.nodes) runs.old.first runs.new.first before to }
    ensures free { runs.new.free ≡ runs.old.free }
    ensures made { length runs.new.nodes ≡ length runs.old.nodes }
{
    if before == NONE {
        runs.first = to;
    } else {
        let node = runs.nodes.get(before);
        runs.nodes.write(before, Node { next: to, ..node });
    }
}

// Links a run of `n` alone between `before` and `at`.
fn link(runs: &mut NodeList, floor: Seq48, before: u16, at: u16, n: Seq48)
    requires linked { AreLinked runs.old }
    requires laid { AreLaid floor 2048 (linked_runs runs.old) }
    requires place { IsPlaceFor floor n (all_nodes runs.old.nodes) runs.old.first before at }
    requires below { AreLaid floor (distance floor n - 1) (runs_from (all_nodes runs.old.nodes) at) }
    ensures linked { AreLinked runs.new }
    ensures adds { Adds floor 2048 n (linked_runs runs.old) (linked_runs runs.new) }
{
    let new = runs.free;
    runs.free = runs.nodes.after(new);
    let node = Node {
        hi: n,
        count: 1,
        next: at,
    };
    runs.nodes.make(new, node);
    point(runs, before, new);
}

// Adds `n` to the top of the run at `at`, which ends right below it.
fn extend_up(runs: &mut NodeList, floor: Seq48, before: u16, at: u16, n: Seq48)
    requires linked { AreLinked runs.old }
    requires laid { AreLaid floor 2048 (linked_runs runs.old) }
    requires place { IsPlaceFor floor n (all_nodes runs.old.nodes) runs.old.first before at }
    requires within { at < 1024 }
    requires right_below { distance floor (node_at (all_nodes runs.old.nodes) at).hi + 1 ≡ distance floor n }
    ensures linked { AreLinked runs.new }
    ensures adds { Adds floor 2048 n (linked_runs runs.old) (linked_runs runs.new) }
{
    let node = runs.nodes.get(at);
    let count = node.count + 1;
    runs.nodes.write(
        at,
        Node {
            hi: n,
            count,
            ..node
        },
    );
}

// Adds `n` to the bottom of the run at `at`, which begins right above it, and joins this run with the next if that ends
// right below `n`.
fn extend_down(runs: &mut NodeList, floor: Seq48, before: u16, at: u16, n: Seq48)
    requires linked { AreLinked runs.old }
    requires laid { AreLaid floor 2048 (linked_runs runs.old) }
    requires place { IsPlaceFor floor n (all_nodes runs.old.nodes) runs.old.first before at }
    requires within { at < 1024 }
    requires right_above { distance floor n + (node_at (all_nodes runs.old.nodes) at).count ≡ distance floor (node_at (all_nodes runs.old.nodes) at).hi }
    ensures linked { AreLinked runs.new }
    ensures adds { Adds floor 2048 n (linked_runs runs.old) (linked_runs runs.new) }
{
    let node = runs.nodes.get(at);
    if node.next < NONE {
        let below = runs.nodes.get(node.next);
        if floor.distance(below.hi) + 1 == floor.distance(n) {
            let count = node.count + 1 + below.count;
            let next = below.next;
            runs.nodes.write(
                at,
                Node {
                    count,
                    next,
                    ..node
                },
            );
            free(runs, node.next, below);
            return;
        }
    }
    let count = node.count + 1;
    runs.nodes.write(at, Node { count, ..node });
}

// Adds `n` if it is missing. Returns whether it was added.
pub(crate) fn put(runs: &mut NodeList, hints: &mut Hints, floor: Seq48, n: Seq48) -> bool
    requires near { distance floor n < 2048 }
    requires laid { AreLaid floor 2048 (linked_runs runs.old) }
    requires linked { AreLinked runs.old }
    ensures linked { AreLinked runs.new }
    ensures adds { OnTrue result (Adds floor 2048 n (linked_runs runs.old) (linked_runs runs.new)) }
    ensures there { OnFalse result (has (numbers_of (linked_runs runs.old)) n ≡ true) }
    ensures stays { OnFalse result (linked_runs runs.new ≡ linked_runs runs.old) }
{
    let ChainPlace { before, at } = place_for(runs, hints, floor, n);
    if at == NONE {
        link(runs, floor, before, at, n);
        return true;
    }
    let node = runs.nodes.get(at);
    let hi = floor.distance(node.hi);
    let place = floor.distance(n);
    if hi + 1 < place {
        link(runs, floor, before, at, n);
    } else if hi + 1 == place {
        extend_up(runs, floor, before, at, n);
    } else if hi == place + u64::from(node.count) {
        extend_down(runs, floor, before, at, n);
    } else {
        return false;
    }
    true
}

// Frees a node, which was this one.
fn free(runs: &mut NodeList, at: u16, node: Node)
    requires { at < length runs.old.nodes }
    ensures all { all_nodes runs.new.nodes ≡ slice_set (all_nodes runs.old.nodes) at (record { hi = node.hi; count = 0; next = runs.old.free }) }
    ensures made { length runs.new.nodes ≡ length runs.old.nodes }
    ensures first { runs.new.first ≡ runs.old.first }
    ensures free { runs.new.free ≡ at }
{
    let (count, next) = (0, runs.free);
    runs.nodes.write(
        at,
        Node {
            count,
            next,
            ..node
        },
    );
    runs.free = at;
}

// Frees the nodes from one on.
fn release(runs: &mut NodeList, from: u16)
    requires parted { IsParted (all_nodes runs.old.nodes) runs.old.first runs.old.free from (length runs.old.nodes) }
    ensures linked { AreLinked runs.new }
    ensures stays { linked_runs runs.new ≡ linked_runs runs.old }
{
    let mut at = from;
    while at < NONE {
        let node = runs.nodes.get(at);
        let next = node.next;
        free(runs, at, node);
        at = next;
    }
}

// Frees all nodes.
pub(crate) fn clear(runs: &mut NodeList)
    requires linked { AreLinked runs.old }
    ensures linked { AreLinked runs.new }
    ensures empty { linked_runs runs.new ≡ [] }
{
    let from = runs.first;
    runs.first = NONE;
    release(runs, from);
}

// Removes the numbers below `to` from the runs above `floor`.
pub(crate) fn cut(runs: &mut NodeList, hints: &mut Hints, floor: Seq48, to: Seq48)
    requires before { IsBefore floor to }
    requires laid { AreLaid floor 2048 (linked_runs runs.old) }
    requires linked { AreLinked runs.old }
    ensures linked { AreLinked runs.new }
    ensures laid { AreLaid to 2048 (linked_runs runs.new) }
    ensures numbers { numbers_of (linked_runs runs.new) ≡ filter (is_from to) (numbers_of (linked_runs runs.old)) }
{
    let rise = floor.distance(to);
    let ChainPlace { before, at } = place_below(runs, hints, floor, to);
    if before == NONE {
        runs.first = NONE;
    } else {
        let last = runs.nodes.get(before);
        let left = floor.distance(last.hi) - rise + 1;
        let count = u64::from(last.count).min(left) as u16;
        let next = NONE;
        runs.nodes.write(
            before,
            Node {
                count,
                next,
                ..last
            },
        );
    }
    release(runs, at);
}
