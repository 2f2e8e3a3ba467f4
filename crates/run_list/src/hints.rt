//! Where a walk along the runs may begin, so that a number far below the newest is not looked for from the top.
//!
//! A hint is the index of a node that a walk passed. Later edits may have freed that node or given it another run, and
//! do not update the hint. So a hint is checked before it is followed. A free node has a count of 0, and one that is
//! used is in the chain, wherever its run lies.
ghost use Rattle.std.specs.Prelude.{◌≡◌, ◌+◌, ◌<◌, IfSome};
ghost use Rattle.seq_circle.specs.Circle.{distance};
ghost use Rattle.run_list.specs.Linked.{AreLinked, IsBegin, IsPlace};
ghost use Rattle.run_list.specs.Nodes.{all_nodes, node_at};

use crate::linked::{ChainPlace, NodeList};
use crate::nodes::NONE;
use seq_circle::Seq48;

// How many successive numbers share a hint (own).
const SHARED: u64 = 32;

// As many hints as the 2,048 numbers of a set need.
const HINTS: usize = 64;

// For each stretch of numbers, the last node that a walk passed whose run ends there.
#[derive(Clone, Copy)]
pub struct Hints {
    nodes: [u16; HINTS],
}

// Which hint a number has.
fn hint_of(n: Seq48) -> usize
    ensures { result < 64 }
{
    (n.get() / SHARED % 64) as usize
}

impl Hints {
    // Hints before any walk.
    pub(crate) fn new() -> Hints {
        Hints {
            nodes: [NONE; HINTS],
        }
    }

    // A walk passed the node of a run that ends at this number.
    pub(crate) fn note(&mut self, hi: Seq48, node: u16) {
        self.nodes[hint_of(hi)] = node;
    }
}

// The place after a node, if its run lies above `n` with a gap.
fn place_after(runs: &NodeList, node: u16, floor: Seq48, n: Seq48) -> Option<ChainPlace>
    requires linked { AreLinked runs.now }
    ensures { IfSome result (λ place. IsBegin floor n (all_nodes runs.now.nodes) runs.now.first place.before place.at) }
{
    let run = runs.nodes.find(node)?;
    let above = floor.distance(run.hi).saturating_sub(floor.distance(n));
    if run.count == 0 || above <= u64::from(run.count) {
        return None;
    }
    Some(ChainPlace {
        before: node,
        at: run.next,
    })
}

// Where the walk to a number begins: after the hint for its stretch of numbers or for the stretch right above,
// otherwise at the first node.
pub(crate) fn begin(runs: &NodeList, hints: &Hints, floor: Seq48, n: Seq48) -> ChainPlace
    requires linked { AreLinked runs.now }
    ensures begins { IsBegin floor n (all_nodes runs.now.nodes) runs.now.first result.before result.at }
{
    let first = ChainPlace {
        before: NONE,
        at: runs.first,
    };
    let Some(second) = place_after(runs, runs.first, floor, n) else {
        return first;
    };
    let own = hint_of(n);
    if let Some(place) = place_after(runs, hints.nodes[own], floor, n) {
        return place;
    }
    if let Some(place) = place_after(runs, hints.nodes[(own + 1) % HINTS], floor, n) {
        return place;
    }
    second
}
