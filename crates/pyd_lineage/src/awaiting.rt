//! Which past node has to be run next for others.
ghost use Rattle.std.specs.Prelude.{◌≡◌, IfOk, position};
ghost use Rattle.pyd_lineage.specs.Awaiting as spec;
ghost use Rattle.pyd_lineage.specs.Lineage.{is_among};

use crate::marking::mark_past;
use crate::numbers::set_of;
use pyd_ir::Node;
use pyd_value::NoMemory;
use std::alloc::Global;
use std::collections::BTreeSet;

/// The place of the first past node, in list order, that isn't known and is wanted: it has one of the
/// wanted numbers, or in turn a past node that is wanted and isn't known names it.
pub fn first_awaited(
    alloc: Global,
    past: &[Node],
    wanted: &[u64],
    known: &[u64],
) -> Result<Option<usize>, NoMemory>
    ensures { IfOk result (λ place. place
        ≡ position (spec.is_awaited (is_among known.now) past.now wanted.now) past.now) }
{
    let known = set_of(alloc, known)?;
    let mut wanted = set_of(alloc, wanted)?;
    mark_past(&mut wanted, past, &known)?;
    Ok(first_missing(past, &wanted, &known))
}

/// The place of the first node that is wanted and isn't known.
fn first_missing(nodes: &[Node], wanted: &BTreeSet<u64>, known: &BTreeSet<u64>) -> Option<usize>
    ensures { result ≡ position (spec.is_missing wanted.now known.now) nodes.now }
{
    nodes.iter().position(|node| wanted.contains(&node.id) && !known.contains(&node.id))
}
