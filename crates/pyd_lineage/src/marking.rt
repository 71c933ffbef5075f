//! The nodes that the chain reaches. An argument names an earlier node, so one walk from the end of
//! the list marks all.
ghost use Rattle.std.specs.Prelude.{ℕ, List as Sequence, IfOk, OnOk};
ghost use Rattle.pyd_lineage.specs.Marking as spec;
ghost use Rattle.pyd_lineage.specs.Marking.{has, Adds, IsSetOf};

use crate::naming::add_named;
use pyd_ir::Node;
use pyd_value::NoMemory;
use std::alloc::Global;
use std::collections::BTreeSet;

/// The numbers of the nodes that the chain reaches through arguments of nodes that aren't known.
pub(crate) fn reached(
    alloc: Global,
    past: &[Node],
    chain: &[Node],
    known: &BTreeSet<u64>,
) -> Result<BTreeSet<u64>, NoMemory>
    ensures { IfOk result (λ set.
        IsSetOf set (spec.reached_names past.now chain.now (has known.now))) }
{
    let mut set = BTreeSet::new(alloc);
    mark_chain(&mut set, chain, known)?;
    mark_past(&mut set, past, known)?;
    Ok(set)
}

fn mark_chain(
    set: &mut BTreeSet<u64>,
    chain: &[Node],
    known: &BTreeSet<u64>,
) -> Result<(), NoMemory>
    ensures { OnOk result (Adds set.old set.new (spec.chain_names (has known.now) chain.now)) }
{
    for node in chain {
        if !known.contains(&node.id) {
            add_named(set, &node.work)?;
        }
    }
    Ok(())
}

/// Of the past nodes only those that the set has by then are gone through.
pub(crate) fn mark_past(
    set: &mut BTreeSet<u64>,
    past: &[Node],
    known: &BTreeSet<u64>,
) -> Result<(), NoMemory>
    ensures { OnOk result ((behind : Sequence ℕ) → IsSetOf set.old behind
        → IsSetOf set.new (spec.past_names (has known.now) past.now behind)) }
{
    let mut left = past.len();
    while left > 0 {
        left -= 1;
        mark_node(set, &past[left], known)?;
    }
    Ok(())
}

fn mark_node(set: &mut BTreeSet<u64>, node: &Node, known: &BTreeSet<u64>) -> Result<(), NoMemory>
    ensures { OnOk result ((behind : Sequence ℕ) → IsSetOf set.old behind
        → IsSetOf set.new (spec.with_names (has known.now) node.now behind)) }
{
    if set.contains(&node.id) && !known.contains(&node.id) {
        add_named(set, &node.work)?;
    }
    Ok(())
}
