//! The runs of a set, one after the other.
use crate::nodes::{NONE, NodeTable};
use seq_circle::Seq48;
use std::marker::Model;

/// A run of successive numbers: `hi` and those right below it, `count` in all.
#[derive(Clone, Copy, Debug, PartialEq, Eq)]
pub struct Stretch {
    /// The newest number of the run.
    pub hi: Seq48,
    /// How many numbers it has, at least 1 and at most 2,048.
    pub count: u16,
}

/// The runs of a set from the newest downwards, as `RunList::walk` gives them. Contracts see those that are left.
#[derive(Drop)]
pub struct Walk<'a> {
    nodes: &'a NodeTable,
    at: u16,
}

impl<'a> Model for Walk<'a> {
    ghost use Rattle.std.specs.Prelude.{List, length};
    ghost use Rattle.run_list.specs.declared.walking.Stretch.{Stretch};
    ghost use Rattle.run_list.specs.Linked.{IsChained, runs_from};
    ghost use Rattle.run_list.specs.Nodes.{all_nodes};

    ghost Value = { List Stretch };

    ghost view = { λ w. runs_from (all_nodes w.nodes.now) w.at };

    ghost invariant = { λ w. IsChained (all_nodes w.nodes.now) w.at (length w.nodes.now) };
}

impl<'a> Walk<'a> {
    ghost use Rattle.std.specs.Prelude.{◌≡◌, length};
    ghost use Rattle.run_list.specs.Linked.{IsChained, runs_from};
    ghost use Rattle.run_list.specs.Nodes.{all_nodes};

    // The walk over the runs from a node on.
    pub(crate) fn over(nodes: &'a NodeTable, at: u16) -> Walk<'a>
        requires { IsChained (all_nodes nodes.now) at (length nodes.now) }
        ensures { result ≡ runs_from (all_nodes nodes.now) at }
    {
        Walk { nodes, at }
    }
}

impl<'a> Iterator for Walk<'a> {
    ghost use Rattle.std.specs.Iterator.{YieldsFirst, item_count};

    type Item = Stretch;

    ghost next_gives = { YieldsFirst (λ w. w) };

    ghost remaining = { item_count (λ w. w) };

    fn next(&mut self) -> Option<Stretch> {
        if self.at == NONE {
            return None;
        }
        let node = self.nodes.get(self.at);
        self.at = node.next;
        Some(Stretch {
            hi: node.hi,
            count: node.count,
        })
    }
}
