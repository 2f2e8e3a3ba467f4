//! The nodes that runs are kept in. Each is made when it is first used, so a set costs nothing for those that it never
//! uses.
//!
//! Contracts see those that are made; of them `all_nodes` makes all 1,024. One that is not made is free, and leads to
//! the next.
ghost use Rattle.std.specs.Prelude.{◌≡◌, ◌<◌, ◌≤◌, [], length, slice_set, IfNone, IfOk, IfSome};
ghost use Rattle.run_list.specs.Nodes.{all_nodes, node_at};

use seq_circle::{NoMemory, Seq48};
use std::alloc::Global;
use std::marker::Model;

// The most runs with a gap between any two that fit into 2,048 successive numbers.
const NODES: usize = 1_024;

// The index that means no node.
pub(crate) const NONE: u16 = 1_024;

// A run, and the index of the node after it.
#[derive(Clone, Copy)]
pub struct Node {
    pub hi: Seq48,
    pub count: u16,
    pub next: u16,
}

// The nodes by their indices, with room for all of them.
#[derive(Drop)]
pub struct NodeTable {
    made: Vec<Node>,
}

impl Model for NodeTable {
    ghost use Rattle.std.specs.Prelude.{◌≡◌, ◌≤◌, List, length, vec_capacity};
    ghost use Rattle.run_list.specs.declared.nodes.Node.{Node};

    ghost Value = { List Node };

    ghost view = { λ t. t.made.items };

    ghost invariant = { λ t. (length t.made.items ≤ 1024) × (vec_capacity t.made ≡ 1024) };
}

impl NodeTable {
    // No node is made.
    pub(crate) fn new(alloc: Global) -> Result<NodeTable, NoMemory>
        ensures { IfOk result (λ table. table ≡ []) }
    {
        let made = Vec::with_capacity(alloc, NODES)?;
        Ok(NodeTable { made })
    }

    // A node that is made.
    pub(crate) fn get(&self, at: u16) -> Node
        requires { at < length self.now }
        ensures { result ≡ node_at (all_nodes self.now) at }
    {
        self.made[usize::from(at)]
    }

    // A node, if it is made.
    pub(crate) fn find(&self, at: u16) -> Option<Node>
        ensures within { IfSome result (λ node. at < 1024) }
        ensures value { IfSome result (λ node. node ≡ node_at (all_nodes self.now) at) }
        ensures none { IfNone result (length self.now ≤ at) }
    {
        self.made.get(usize::from(at)).copied()
    }

    // The index of the node after one, whether that is made or not.
    pub(crate) fn after(&self, at: u16) -> u16
        requires { at < 1024 }
        ensures { result ≡ (node_at (all_nodes self.now) at).next }
    {
        match self.find(at) {
            Some(node) => node.next,
            None => at + 1,
        }
    }

    // Writes a node that is made.
    pub(crate) fn write(&mut self, at: u16, node: Node)
        requires { at < length self.old }
        ensures all { all_nodes self.new ≡ slice_set (all_nodes self.old) at node }
        ensures made { length self.new ≡ length self.old }
    {
        self.made[usize::from(at)] = node;
    }

    // Writes a node that is made, or makes the first one that is not.
    pub(crate) fn make(&mut self, at: u16, node: Node)
        requires within { at < 1024 }
        requires next { at ≤ length self.old }
        ensures all { all_nodes self.new ≡ slice_set (all_nodes self.old) at node }
        ensures made { at < length self.new }
        ensures more { length self.old ≤ length self.new }
    {
        if usize::from(at) < self.made.len() {
            self.write(at, node);
        } else {
            self.made.push_reserved(node);
        }
    }
}
