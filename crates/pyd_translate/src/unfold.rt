//! Blocks and sides as pieces.
ghost use Rattle.std.specs.Prelude.{◌≡◌, IfOk};
ghost use Rattle.pyd_translate.specs.Starts as spec;
ghost use Rattle.pyd_translate.specs.Statements.{done};

use crate::arguments::copies;
use crate::context::Context;
use crate::draft::Draft;
use crate::env::slots_of;
use crate::setting::Setting;
use crate::sides::build_side;
use crate::starts::build_start;
use crate::{At, Piece};
use pyd_ir::{Arg, Side};
use pyd_scope::Program;
use pyd_value::{List, NoMemory};
use std::alloc::Global;

/// The nodes of the statements at a start and of what goes on behind them, numbered from `ids` on.
pub fn unfold_block(
    alloc: Global,
    program: &Program,
    at: &At,
    env: &[Arg],
    ids: u64,
) -> Result<Piece, NoMemory>
    ensures { IfOk result (λ p. p ≡ spec.block_piece program.now.file at.now env.now ids) }
{
    let mut slots = slots_of(alloc, env)?;
    let mut draft = Draft {
        nodes: List::new(alloc),
        next: ids,
    };
    let setting = Setting {
        alloc,
        program,
        routine: at.routine,
        depth: at.depth,
    };
    let rest = at.rest.as_slice();
    let value = build_start(&setting, &at.start, rest, &mut slots, &mut draft)?;
    piece(alloc, slots, value, draft)
}

/// Nodes that were made, with what the slots and the value are then.
fn piece(alloc: Global, slots: Vec<Arg>, value: Arg, draft: Draft) -> Result<Piece, NoMemory>
    ensures { IfOk result
        (λ p. p ≡ spec.piece_of draft.nodes (done slots.items value) draft.next) }
{
    match List::from_vec(alloc, slots) {
        Ok(env) => Ok(Piece {
            nodes: draft.nodes,
            env,
            value,
            next: draft.next,
        }),
        Err(NoMemory) => {
            drop(value);
            Err(NoMemory)
        }
    }
}

/// The nodes of a side of an expression in a line, numbered from `ids` on.
pub fn unfold_side(
    alloc: Global,
    program: &Program,
    at: &At,
    side: &Side,
    env: &[Arg],
    line: u32,
    ids: u64,
) -> Result<Piece, NoMemory>
    ensures { IfOk result
        (λ p. p ≡ spec.side_piece program.now.file at.now side.now env.now line ids) }
{
    let slots = copies(alloc, env)?;
    let mut draft = Draft {
        nodes: List::new(alloc),
        next: ids,
    };
    let at = Context {
        alloc,
        program,
        routine: at.routine,
        depth: at.depth,
        line,
        env,
    };
    let got = build_side(&at, side, &mut draft)?;
    let value = value_or_unbound(got);
    Ok(Piece {
        nodes: draft.nodes,
        env: slots,
        value,
        next: draft.next,
    })
}

/// A value that a Stop may have left out.
fn value_or_unbound(got: Option<Arg>) -> Arg
    ensures { result ≡ spec.value_or_unbound got }
{
    match got {
        Some(a) => a,
        None => Arg::Unbound,
    }
}
