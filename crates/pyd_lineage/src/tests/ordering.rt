//! Whether nodes stand in order, each behind those that it names.
ghost use Rattle.std.specs.Prelude.{◌∷◌, ◌++◌, List as Sequence, IsTrue, IfOk};
ghost use Rattle.pyd_ir.specs.declared.node.Node.{Node as AnyNode};
ghost use Rattle.pyd_lineage.specs.Lineage.{IsInOrder};
ghost use Rattle.pyd_lineage.specs.Ordered.{AreOrdered};

use crate::naming::add_named;
use crate::numbers::add_number;
use pyd_ir::{Chain, Node, Past};
use pyd_value::NoMemory;
use std::alloc::Global;
use std::collections::BTreeSet;

// Whether the numbers differ, and no node names itself or a node behind it.
pub(super) fn in_order(alloc: Global, past: &Past, chain: &Chain) -> Result<bool, NoMemory>
    ensures { IfOk result (λ yes. IsTrue yes → IsInOrder past.now.nodes chain.now.nodes) }
{
    let mut later = BTreeSet::new(alloc);
    if !are_ordered(alloc, &mut later, chain.nodes.as_slice())? {
        return Ok(false);
    }
    are_ordered(alloc, &mut later, past.nodes.as_slice())
}

// Whether these may stand before those whose numbers are in the set.
fn are_ordered(alloc: Global, later: &mut BTreeSet<u64>, nodes: &[Node]) -> Result<bool, NoMemory>
    ensures { IfOk result (λ yes. IsTrue yes → (behind : Sequence AnyNode)
        → AreOrdered later.old behind → AreOrdered later.new (nodes.now ++ behind)) }
{
    let mut left = nodes.len();
    while left > 0 {
        left -= 1;
        if !is_ordered(alloc, later, &nodes[left])? {
            return Ok(false);
        }
    }
    Ok(true)
}

fn is_ordered(alloc: Global, later: &mut BTreeSet<u64>, node: &Node) -> Result<bool, NoMemory>
    ensures { IfOk result (λ yes. IsTrue yes → (behind : Sequence AnyNode)
        → AreOrdered later.old behind → AreOrdered later.new (node.now ∷ behind)) }
{
    if later.contains(&node.id) {
        return Ok(false);
    }
    add_number(later, node.id)?;
    let mut named = BTreeSet::new(alloc);
    add_named(&mut named, &node.work)?;
    Ok(named.is_disjoint(later))
}
