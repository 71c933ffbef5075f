//! What has to be run, and what may be dropped.
ghost use Rattle.std.specs.Prelude.{◌≡◌, ◌++◌, [], IfOk, OnOk};
ghost use Rattle.pyd_ir.specs.Arguments as ir;
ghost use Rattle.pyd_lineage.specs.Lineage.{IsInOrder, AreNeeded, AreUnreached};
ghost use Rattle.pyd_lineage.specs.Marking as spec;
ghost use Rattle.pyd_lineage.specs.Marking.{numbers_where};

use crate::marking::reached;
use crate::numbers::set_of;
use pyd_ir::{Chain, Node, Past, Work};
use pyd_value::{List, NoMemory};
use std::alloc::Global;
use std::collections::BTreeSet;

/// The numbers of the pure leaves, in list order, that aren't known and either stand in the chain or
/// are reached by a node of it, through the arguments of nodes that aren't known.
pub fn needed(
    alloc: Global,
    past: &Past,
    chain: &Chain,
    known: &[u64],
) -> Result<List<u64>, NoMemory>
    requires { IsInOrder past.now.nodes chain.now.nodes }
    ensures { IfOk result (AreNeeded past.now.nodes chain.now.nodes known.now) }
{
    needed_among(alloc, past.nodes.as_slice(), chain.nodes.as_slice(), known)
}

/// The same of nodes that stand in slices.
pub fn needed_among(
    alloc: Global,
    past: &[Node],
    chain: &[Node],
    known: &[u64],
) -> Result<List<u64>, NoMemory>
    requires { IsInOrder past.now chain.now }
    ensures { IfOk result (AreNeeded past.now chain.now known.now) }
{
    let known = set_of(alloc, known)?;
    let reached = reached(alloc, past, chain, &known)?;
    let mut numbers = List::new(alloc);
    add_missed(&mut numbers, past, &known, &reached)?;
    add_missing(&mut numbers, chain, &known)?;
    Ok(numbers)
}

/// The numbers of the past nodes, in list order, that no node of the chain reaches through arguments.
pub fn trim(alloc: Global, past: &Past, chain: &Chain) -> Result<List<u64>, NoMemory>
    requires { IsInOrder past.now.nodes chain.now.nodes }
    ensures { IfOk result (AreUnreached past.now.nodes chain.now.nodes) }
{
    trim_among(alloc, past.nodes.as_slice(), chain.nodes.as_slice())
}

/// The same of nodes that stand in slices.
pub fn trim_among(alloc: Global, past: &[Node], chain: &[Node]) -> Result<List<u64>, NoMemory>
    requires { IsInOrder past.now chain.now }
    ensures { IfOk result (AreUnreached past.now chain.now) }
{
    let none = BTreeSet::new(alloc);
    let reached = reached(alloc, past, chain, &none)?;
    left_out(alloc, past, &reached)
}

/// Puts at the end the numbers of the pure leaves that aren't known.
fn add_missing(
    numbers: &mut List<u64>,
    nodes: &[Node],
    known: &BTreeSet<u64>,
) -> Result<(), NoMemory>
    ensures { OnOk result (numbers.new
        ≡ numbers.old ++ numbers_where (spec.is_missing known.now) nodes.now) }
{
    for node in nodes {
        if is_missing(node, known) {
            numbers.add(node.id)?;
        }
    }
    Ok(())
}

/// The same of those that are reached.
fn add_missed(
    numbers: &mut List<u64>,
    nodes: &[Node],
    known: &BTreeSet<u64>,
    reached: &BTreeSet<u64>,
) -> Result<(), NoMemory>
    ensures { OnOk result (numbers.new
        ≡ numbers.old ++ numbers_where (spec.is_missed known.now reached.now) nodes.now) }
{
    for node in nodes {
        if is_missing(node, known) && reached.contains(&node.id) {
            numbers.add(node.id)?;
        }
    }
    Ok(())
}

fn left_out(alloc: Global, nodes: &[Node], reached: &BTreeSet<u64>) -> Result<List<u64>, NoMemory>
    ensures { IfOk result (λ numbers. numbers
        ≡ numbers_where (spec.is_left_out reached.now) nodes.now) }
{
    let mut numbers = List::new(alloc);
    for node in nodes {
        if !reached.contains(&node.id) {
            numbers.add(node.id)?;
        }
    }
    Ok(numbers)
}

fn is_missing(node: &Node, known: &BTreeSet<u64>) -> bool
    ensures { result ≡ spec.is_missing known.now node.now }
{
    is_pure(&node.work) && !known.contains(&node.id)
}

/// Whether it may be done at any time, and again.
fn is_pure(work: &Work) -> bool
    ensures { result ≡ ir.is_pure work.now }
{
    match work {
        Work::Op { .. } | Work::Read { .. } | Work::Call { .. } | Work::Stop(_) => true,
        Work::Print(_)
        | Work::Run { .. }
        | Work::Cond { .. }
        | Work::While { .. }
        | Work::For { .. }
        | Work::Pick { .. }
        | Work::Enter { .. } => false,
    }
}
