//! The uses of names in a file, with what the names stand for.
ghost use Rattle.std.specs.Prelude.{◌≡◌, ◌++◌, map, IfOk, OnOk};
ghost use Rattle.std.specs.List.{flat_map};
ghost use Rattle.pyd_names.specs.Binding as names;
ghost use Rattle.pyd_names.specs.Uses as uses;
ghost use Rattle.pyd_scope.specs.Least.{least};
ghost use Rattle.pyd_scope.specs.Rules as rule;
ghost use Rattle.pyd_scope.specs.Standings as spec;
ghost use Rattle.pyd_scope.specs.UseRules as use_rule;

use crate::least::lesser;
use crate::marks::is_functional;
use crate::names::Names;
use crate::standing::{Outside, Standing};
use pyd_names::{Manner, NameUse, function_locals, functions, module_uses, uses};
use pyd_tree::{File, Func};
use pyd_value::{Builtin, NoMemory};
use std::alloc::Global;

/// A use of a name, in a routine that is `@functional` or not.
#[derive(Clone, Copy)]
pub struct Sighting {
    pub line: u32,
    pub manner: Manner,
    pub standing: Standing,
    pub functional: bool,
}

/// The rules that ask for uses alone.
#[derive(Clone, Copy)]
pub enum UseRule {
    FunctionValue,
    CallOfVariable,
    GlobalRead,
    Impure,
}

/// The uses in the module, and then those in each function.
pub fn sightings(alloc: Global, file: &File) -> Result<Vec<Sighting>, NoMemory>
    ensures { IfOk result (λ list. list.items ≡ rule.sightings file.now) }
{
    let outside = Outside::of(alloc, file)?;
    let mut out = Vec::new(alloc);
    let module = module_uses(alloc, file)?;
    add_sightings(
        &outside,
        &outside.variables,
        false,
        module.as_slice(),
        &mut out,
    )?;
    let funcs = functions(alloc, file)?;
    for func in &funcs {
        add_function(alloc, &outside, func, &mut out)?;
    }
    Ok(out)
}

/// Puts the uses in a function at the end.
fn add_function(
    alloc: Global,
    outside: &Outside,
    func: &Func,
    out: &mut Vec<Sighting>,
) -> Result<(), NoMemory>
    ensures { OnOk result (out.new.items
        ≡ out.old.items ++ spec.function_sightings outside.now func.now) }
{
    let locals = function_locals(alloc, func)?;
    let locals = Names::of(alloc, locals.as_slice())?;
    let uses = uses(alloc, &func.body)?;
    add_sightings(outside, &locals, is_functional(func), uses.as_slice(), out)
}

fn add_sightings(
    outside: &Outside,
    locals: &Names,
    functional: bool,
    uses: &[NameUse],
    out: &mut Vec<Sighting>,
) -> Result<(), NoMemory>
    ensures { OnOk result (out.new.items
        ≡ out.old.items ++ map (spec.sighting_in outside.now locals.now functional) uses.now) }
{
    for name_use in uses {
        out.push(Sighting {
            line: name_use.line,
            manner: name_use.manner,
            standing: outside.standing_in(locals, &name_use.name),
            functional,
        })?;
    }
    Ok(())
}

/// The least line of a use that breaks a rule.
pub fn misused_line(by: UseRule, sightings: &[Sighting]) -> Option<u32>
    ensures { result ≡ least (rule.seen_where (use_rule.is_broken_by by) sightings.now) }
{
    let mut line = None;
    for sighting in sightings {
        if is_broken_by(by, sighting) {
            line = lesser(line, Some(sighting.line));
        }
    }
    line
}

fn is_broken_by(by: UseRule, sighting: &Sighting) -> bool
    ensures { result ≡ use_rule.is_broken_by by sighting.now }
{
    match by {
        UseRule::FunctionValue => is_no_value(sighting.standing, sighting.manner),
        UseRule::CallOfVariable => is_call(sighting.manner) && is_variable(sighting.standing),
        UseRule::GlobalRead => !is_call(sighting.manner) && is_global(sighting.standing),
        UseRule::Impure => {
            sighting.functional && is_call(sighting.manner) && may_print(sighting.standing)
        }
    }
}

fn is_call(manner: Manner) -> bool
    ensures { result ≡ rule.is_call manner }
{
    match manner {
        Manner::Read => false,
        Manner::Called | Manner::Iterated => true,
    }
}

fn is_no_value(standing: Standing, manner: Manner) -> bool
    ensures { result ≡ rule.is_no_value standing manner }
{
    match standing {
        Standing::Imported => true,
        Standing::Function(_) => !is_call(manner),
        Standing::Builtin(builtin) => misuses(builtin, manner),
        Standing::Local | Standing::Constant | Standing::Variable | Standing::Unbound => false,
    }
}

fn misuses(builtin: Builtin, manner: Manner) -> bool
    ensures { result ≡ rule.misuses builtin manner }
{
    match manner {
        Manner::Read => true,
        Manner::Called => is_range(builtin),
        Manner::Iterated => false,
    }
}

fn is_range(builtin: Builtin) -> bool
    ensures { result ≡ rule.is_range builtin }
{
    matches!(builtin, Builtin::Range)
}

fn is_variable(standing: Standing) -> bool
    ensures { result ≡ rule.is_variable standing }
{
    matches!(
        standing,
        Standing::Local | Standing::Constant | Standing::Variable
    )
}

fn is_global(standing: Standing) -> bool
    ensures { result ≡ rule.is_global standing }
{
    matches!(standing, Standing::Variable)
}

fn may_print(standing: Standing) -> bool
    ensures { result ≡ rule.may_print standing }
{
    match standing {
        Standing::Function(functional) => !functional,
        Standing::Builtin(builtin) => is_print(builtin),
        Standing::Local
        | Standing::Constant
        | Standing::Imported
        | Standing::Variable
        | Standing::Unbound => false,
    }
}

fn is_print(builtin: Builtin) -> bool
    ensures { result ≡ rule.is_print builtin }
{
    matches!(builtin, Builtin::Print)
}
