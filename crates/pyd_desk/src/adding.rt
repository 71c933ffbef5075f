//! Items and copies of nodes at the end of a vector.
ghost use Rattle.std.specs.Prelude.{◌≡◌, ◌∷◌, [], ◌++◌, OnOk};

use crate::copying::copy_node;
use pyd_ir::Node;
use pyd_value::NoMemory;
use std::alloc::Global;

/// Puts an item at the end, and drops it where there is no memory.
pub(crate) fn add<T: Drop>(items: &mut Vec<T>, item: T) -> Result<(), NoMemory>
    ensures { OnOk result (items.new.items ≡ items.old.items ++ item ∷ []) }
{
    match items.push(item) {
        Ok(()) => Ok(()),
        Err(_) => Err(NoMemory),
    }
}

/// Puts copies of nodes at the end.
pub(crate) fn add_copies(
    alloc: Global,
    nodes: &mut Vec<Node>,
    more: &[Node],
) -> Result<(), NoMemory>
    ensures { OnOk result (nodes.new.items ≡ nodes.old.items ++ more.now) }
{
    for node in more {
        add(nodes, copy_node(alloc, node)?)?;
    }
    Ok(())
}
