//! Pieces as text.

use pyd_graph::nodes_text;
use pyd_ir::{Arg, Frame, Node, Side, Work};
use pyd_scope::Program;
use pyd_text::write_repr;
use pyd_translate::Piece;
use pyd_value::NoMemory;
use std::alloc::Global;
use std::test::Fail;

/// The graph of a piece, what isn't told there of its composites, and what takes the place of ports.
pub(super) fn piece_text(alloc: Global, program: &Program, piece: &Piece) -> Result<String, Fail> {
    let nodes = piece.nodes.as_slice();
    let graph = nodes_text(alloc, program.routines.as_slice(), nodes)?;
    let mut text = String::from_utf8(graph).ok().ok_or("a text")?;
    for node in nodes {
        push_composite(alloc, &mut text, node)?;
    }
    text.push_str(&format!(in alloc; "next {}:", piece.next)?)?;
    push_args(alloc, &mut text, piece.env.as_slice())?;
    text.push_str(" value")?;
    push_arg(alloc, &mut text, &piece.value)?;
    text.push('\n')?;
    Ok(text)
}

/// Appends the line of a composite with slots: its number and its other fields.
fn push_composite(alloc: Global, text: &mut String, node: &Node) -> Result<(), NoMemory> {
    let id = node.id;
    match &node.work {
        Work::Cond {
            stmt,
            arm,
            rest,
            env,
            ..
        } => {
            text.push_str(&format!(in alloc; "{id} if {stmt} arm {arm}")?)?;
            push_frames(alloc, text, rest.as_slice())?;
            push_slots(alloc, text, env.as_slice())
        }
        Work::While {
            stmt,
            turns,
            rest,
            env,
            ..
        }
        | Work::For {
            stmt,
            turns,
            rest,
            env,
            ..
        } => {
            text.push_str(&format!(in alloc; "{id} loop {stmt} turns {turns}")?)?;
            push_frames(alloc, text, rest.as_slice())?;
            push_slots(alloc, text, env.as_slice())
        }
        Work::Pick { yes, no, env, .. } => {
            text.push_str(&format!(in alloc; "{id} yes")?)?;
            push_side(alloc, text, yes)?;
            text.push_str(" no")?;
            push_side(alloc, text, no)?;
            push_slots(alloc, text, env.as_slice())
        }
        _ => Ok(()),
    }
}

fn push_frames(alloc: Global, text: &mut String, rest: &[Frame]) -> Result<(), NoMemory> {
    for frame in rest {
        match frame {
            Frame::After(stmt) => text.push_str(&format!(in alloc; ", after {stmt}")?)?,
            Frame::Again { stmt, turns, over } => {
                text.push_str(&format!(in alloc; ", again {stmt} turns {turns} over")?)?;
                push_arg(alloc, text, over)?;
            }
        }
    }
    Ok(())
}

fn push_side(alloc: Global, text: &mut String, side: &Side) -> Result<(), NoMemory> {
    match side {
        Side::Arg(arg) => push_arg(alloc, text, arg),
        Side::Expr(expr) => Ok(text.push_str(&format!(in alloc; " e{expr}")?)?),
        Side::Tail { expr, member, left } => {
            text.push_str(&format!(in alloc; " e{expr}.{member}")?)?;
            push_arg(alloc, text, left)
        }
    }
}

/// Appends the arguments of slots, and ends the line.
fn push_slots(alloc: Global, text: &mut String, env: &[Arg]) -> Result<(), NoMemory> {
    text.push(':')?;
    push_args(alloc, text, env)?;
    Ok(text.push('\n')?)
}

fn push_args(alloc: Global, text: &mut String, args: &[Arg]) -> Result<(), NoMemory> {
    for arg in args {
        push_arg(alloc, text, arg)?;
    }
    Ok(())
}

/// Appends an argument behind a space; a slot port has `$` in the place of `#`.
fn push_arg(alloc: Global, text: &mut String, arg: &Arg) -> Result<(), NoMemory> {
    text.push(' ')?;
    match arg {
        Arg::Known(value) => write_repr(text, value),
        Arg::From(at) => Ok(text.push_str(&format!(in alloc; "#{}.{}", at.node, at.port)?)?),
        Arg::Slot(at) => Ok(text.push_str(&format!(in alloc; "${}.{}", at.node, at.port)?)?),
        Arg::Unbound => Ok(text.push('?')?),
    }
}
