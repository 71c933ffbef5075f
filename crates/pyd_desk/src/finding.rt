//! Nodes by their numbers.
ghost use Rattle.std.specs.Prelude.{◌≡◌};
ghost use Rattle.std.specs.Option.{option_copied};
ghost use Rattle.pyd_runs.specs.Records as spec;

use pyd_ir::Node;

/// The first node of this number, if there is one.
pub fn find(nodes: &[Node], number: u64) -> Option<&Node>
    ensures { option_copied result ≡ spec.node_at nodes.now number }
{
    for node in nodes {
        if node.id == number {
            return Some(node);
        }
    }
    None
}

/// Whether there is a first node, and it has this number.
pub fn heads(number: u64, nodes: &[Node]) -> bool
    ensures { result ≡ spec.heads number nodes.now }
{
    match nodes.first() {
        Some(node) => node.id == number,
        None => false,
    }
}
