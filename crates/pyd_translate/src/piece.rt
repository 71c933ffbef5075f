//! Nodes that were made together.

use pyd_ir::{Arg, Node};
use pyd_value::List;

/// Nodes in program order, what then stands in the routine's slots, the value that was returned or
/// evaluated, and the first number that no node has.
#[derive(Drop)]
pub struct Piece {
    pub nodes: List<Node>,
    pub env: List<Arg>,
    pub value: Arg,
    pub next: u64,
}
