//! Nodes, and the two lists in which they stand.

use crate::Work;
use pyd_value::List;

/// A node of the graph.
#[derive(Drop)]
pub struct Node {
    /// Its number, which no other node has.
    pub id: u64,
    /// The first line, counted from 1, of the statement or header that it is made for.
    pub line: u32,
    /// How deep its routine was called, the module being at depth 0.
    pub depth: u32,
    /// The routine that it is made for: 0 is the module, and the functions follow in text order.
    pub routine: u32,
    pub work: Work,
}

/// The pure nodes that are settled, in program order.
#[derive(Drop)]
pub struct Past {
    pub nodes: List<Node>,
}

/// The nodes that aren't settled, in program order.
#[derive(Drop)]
pub struct Chain {
    pub nodes: List<Node>,
}
