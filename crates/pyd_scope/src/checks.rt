//! What is made of a file.
ghost use Rattle.std.specs.Prelude.{◌≡◌, None, IfOk, IfErr};
ghost use Rattle.pyd_names.specs.WellFormed.{IsWellFormed};
ghost use Rattle.pyd_scope.specs.Checks as spec;
ghost use Rattle.pyd_scope.specs.Parts as parts;
ghost use Rattle.pyd_scope.specs.Answers.{IsStop};

use crate::index::Index;
use crate::refusals::refusal;
use crate::routine::{add_item, add_module};
use crate::tables::Tables;
use crate::{CheckStop, Program, Routine};
use pyd_names::constants;
use pyd_tree::File;
use pyd_value::{List, NoMemory};
use std::alloc::Global;

/// The program that a file is, or the lowest-numbered rule of scope that it breaks, with the least
/// line that breaks it. The file is dropped where it is refused.
pub fn check(alloc: Global, file: File) -> Result<Program, CheckStop>
    requires { IsWellFormed file }
    ensures file { IfOk result (λ p. p.file ≡ file) }
    ensures ok { IfOk result (λ p.
        spec.answer file ≡ Ok (record { routines = p.routines; constants = p.constants })) }
    ensures refused { IfErr result (IsStop file) }
{
    match refusal(alloc, &file) {
        Ok(None) => {}
        Ok(Some(refusal)) => return Err(CheckStop::Refused(refusal)),
        Err(NoMemory) => return Err(CheckStop::NoMemory),
    }
    match program(alloc, file) {
        Ok(program) => Ok(program),
        Err(NoMemory) => Err(CheckStop::NoMemory),
    }
}

/// The program that a file is which breaks no rule.
fn program(alloc: Global, file: File) -> Result<Program, NoMemory>
    requires well_formed { IsWellFormed file }
    requires accepted { spec.refusal file ≡ None }
    ensures { IfOk result (λ p. p.file ≡ file) }
{
    let routines = routines(alloc, &file)?;
    let constants = constants(alloc, &file)?;
    let tables = Tables::of(alloc, &file)?;
    let index = Index::of(alloc, &file)?;
    Ok(Program {
        file,
        routines,
        constants,
        tables,
        index,
    })
}

/// The module, and then the functions in text order.
fn routines(alloc: Global, file: &File) -> Result<List<Routine>, NoMemory>
    requires { IsWellFormed file.now }
    ensures { IfOk result (λ list. list ≡ parts.routines file.now) }
{
    let mut out = List::new(alloc);
    add_module(alloc, file, &mut out)?;
    for item in file.items.as_slice() {
        add_item(alloc, item, &mut out)?;
    }
    Ok(out)
}
