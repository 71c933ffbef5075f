//! The nodes that stand from a composite on once a piece has taken its place.
ghost use Rattle.std.specs.Prelude.{◌≡◌, ◌++◌, IfOk, OnOk, map};
ghost use Rattle.pyd_refine.specs.Redirecting.{piece_images, redirect_node, replaced_by};

use crate::adding::{add, add_copies};
use crate::redirecting::Images;
use pyd_ir::{Arg, Node};
use pyd_translate::{Piece, slots_of};
use pyd_value::NoMemory;
use std::alloc::Global;

/// The nodes of a piece, and then the later ones, which don't name the composite any more.
pub(crate) fn replacement(
    alloc: Global,
    id: u64,
    piece: &Piece,
    after: &[Node],
) -> Result<Vec<Node>, NoMemory>
    ensures { IfOk result (λ nodes. nodes.items ≡ replaced_by id piece.now after.now) }
{
    let ports = ports_of(alloc, piece)?;
    let images = Images {
        alloc,
        id,
        ports: ports.as_slice(),
    };
    let mut nodes = Vec::new(alloc);
    add_copies(alloc, &mut nodes, piece.nodes.as_slice())?;
    add_redirected(&images, &mut nodes, after)?;
    Ok(nodes)
}

/// The arguments in the place of the ports: the slots, and then the value.
fn ports_of(alloc: Global, piece: &Piece) -> Result<Vec<Arg>, NoMemory>
    ensures { IfOk result (λ ports. ports.items ≡ piece_images piece.now) }
{
    let mut ports = slots_of(alloc, piece.env.as_slice())?;
    let value = piece.value.try_copy(alloc)?;
    add(&mut ports, value)?;
    Ok(ports)
}

/// Puts later nodes at the end.
fn add_redirected(images: &Images<'_>, nodes: &mut Vec<Node>, more: &[Node]) -> Result<(), NoMemory>
    ensures { OnOk result (nodes.new.items ≡ nodes.old.items
        ++ map (redirect_node images.now.id images.now.ports.now) more.now) }
{
    for node in more {
        add(nodes, images.node(node)?)?;
    }
    Ok(())
}
