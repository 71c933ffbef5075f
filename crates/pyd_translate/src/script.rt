//! The nodes of a script.
ghost use Rattle.std.specs.Prelude.{◌≡◌, IfOk};
ghost use Rattle.pyd_translate.specs.Scripts as spec;
ghost use Rattle.pyd_translate.specs.Slots as slots;

use crate::setting::Setting;
use crate::unfold::unfold_block;
use crate::{At, Piece, Start};
use pyd_ir::Arg;
use pyd_scope::Program;
use pyd_value::{List, NoMemory, Text};
use std::alloc::Global;

/// The nodes of the script's own statements before any of them is refined, numbered from 0. No variable
/// is bound.
pub fn unfold_script(alloc: Global, program: &Program) -> Result<Piece, NoMemory>
    ensures { IfOk result (λ p. p ≡ spec.script_piece program.now.file) }
{
    let module = Setting {
        alloc,
        program,
        routine: 0,
        depth: 0,
    };
    let variables = unbound_slots(alloc, module.slots())?;
    let start = At {
        routine: 0,
        depth: 0,
        start: Start::Body,
        rest: List::new(alloc),
    };
    unfold_block(alloc, program, &start, variables.as_slice(), 0)
}

/// The arguments of slots where none is bound.
fn unbound_slots(alloc: Global, names: &[Text]) -> Result<List<Arg>, NoMemory>
    ensures { IfOk result (λ args. args ≡ slots.unbound_slots names.now) }
{
    let mut args = List::new(alloc);
    for i in 0..names.len() {
        args.add(Arg::Unbound)?;
    }
    Ok(args)
}
