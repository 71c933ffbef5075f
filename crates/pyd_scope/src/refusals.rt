//! Which rule a file breaks.
ghost use Rattle.std.specs.Prelude.{◌≡◌, option_map, IfOk};
ghost use Rattle.pyd_scope.specs.Checks as spec;
ghost use Rattle.pyd_scope.specs.ByRule as by_rule;
ghost use Rattle.pyd_scope.specs.Rules as rule;
ghost use Rattle.pyd_scope.specs.Least.{least};

use crate::Refusal;
use crate::definitions::{definitions, rebound_line, repeated_line, taken_line};
use crate::heads::{late_def, not_constant};
use crate::jumps::{break_outside, return_outside};
use crate::least::lesser;
use crate::marks::decorator;
use crate::parameters::twice_parameter;
use crate::sightings::{Sighting, UseRule, misused_line, sightings};
use crate::standing::{function_names, imported_names};
use pyd_names::{Binding, module_bindings};
use pyd_tree::File;
use pyd_value::NoMemory;
use std::alloc::Global;

/// A rule, without a line.
#[derive(Clone, Copy)]
enum Rule {
    TwiceDefined,
    Rebind,
    FunctionValue,
    CallOfVariable,
    GlobalRead,
    Impure,
    ReturnOutside,
    BreakOutside,
    LateDef,
    NotConstant,
    Decorator,
    TwiceParameter,
}

/// The refusal by the lowest-numbered rule that a file breaks, or none.
pub fn refusal(alloc: Global, file: &File) -> Result<Option<Refusal>, NoMemory>
    ensures { IfOk result (λ r. r ≡ spec.refusal file.now) }
{
    let bindings = by_bindings(alloc, file)?;
    let uses = by_uses(alloc, file)?;
    let statements = by_statements(alloc, file)?;
    let later = or_else(uses, statements);
    let all = or_else(bindings, later);
    Ok(all)
}

fn or_else(first: Option<Refusal>, other: Option<Refusal>) -> Option<Refusal>
    ensures { result ≡ spec.or_else first other }
{
    match first {
        Some(refusal) => Some(refusal),
        None => other,
    }
}

/// The refusal by a rule, if a line breaks it.
fn refused(rule: Rule, line: Option<u32>) -> Option<Refusal>
    ensures { result ≡ option_map (by_rule.at_line rule) line }
{
    match line {
        Some(line) => Some(at_line(rule, line)),
        None => None,
    }
}

fn at_line(rule: Rule, line: u32) -> Refusal
    ensures { result ≡ by_rule.at_line rule line }
{
    match rule {
        Rule::TwiceDefined => Refusal::TwiceDefined(line),
        Rule::Rebind => Refusal::Rebind(line),
        Rule::FunctionValue => Refusal::FunctionValue(line),
        Rule::CallOfVariable => Refusal::CallOfVariable(line),
        Rule::GlobalRead => Refusal::GlobalRead(line),
        Rule::Impure => Refusal::Impure(line),
        Rule::ReturnOutside => Refusal::ReturnOutside(line),
        Rule::BreakOutside => Refusal::BreakOutside(line),
        Rule::LateDef => Refusal::LateDef(line),
        Rule::NotConstant => Refusal::NotConstant(line),
        Rule::Decorator => Refusal::Decorator(line),
        Rule::TwiceParameter => Refusal::TwiceParameter(line),
    }
}

fn by_bindings(alloc: Global, file: &File) -> Result<Option<Refusal>, NoMemory>
    ensures { IfOk result (λ r. r ≡ spec.first (spec.by_bindings file.now)) }
{
    let definitions = definitions(alloc, file)?;
    let repeated = repeated_line(alloc, definitions.as_slice())?;
    let rebound = rebind(alloc, file, definitions.as_slice())?;
    let twice = refused(Rule::TwiceDefined, repeated);
    let binds = refused(Rule::Rebind, rebound);
    let last = or_else(binds, None);
    let all = or_else(twice, last);
    Ok(all)
}

fn rebind(alloc: Global, file: &File, definitions: &[Binding]) -> Result<Option<u32>, NoMemory>
    requires { definitions.now ≡ rule.definitions file.now }
    ensures { IfOk result (λ line. line ≡ least (rule.rebind file.now)) }
{
    let imported = imported_names(alloc, file)?;
    let functions = function_names(alloc, file)?;
    let bindings = module_bindings(alloc, file)?;
    let taken = taken_line(&imported, definitions);
    let rebound = rebound_line(&imported, &functions, bindings.as_slice());
    Ok(lesser(taken, rebound))
}

fn by_uses(alloc: Global, file: &File) -> Result<Option<Refusal>, NoMemory>
    ensures { IfOk result (λ r. r ≡ spec.first (spec.by_uses file.now)) }
{
    let sightings = sightings(alloc, file)?;
    Ok(misused(sightings.as_slice()))
}

fn misused(sightings: &[Sighting]) -> Option<Refusal>
    ensures { result ≡ by_rule.misused sightings.now }
{
    let value_line = misused_line(UseRule::FunctionValue, sightings);
    let call_line = misused_line(UseRule::CallOfVariable, sightings);
    let read_line = misused_line(UseRule::GlobalRead, sightings);
    let impure_line = misused_line(UseRule::Impure, sightings);
    let value = refused(Rule::FunctionValue, value_line);
    let call = refused(Rule::CallOfVariable, call_line);
    let read = refused(Rule::GlobalRead, read_line);
    let impure = refused(Rule::Impure, impure_line);
    let fourth = or_else(impure, None);
    let third = or_else(read, fourth);
    let second = or_else(call, third);
    or_else(value, second)
}

fn by_statements(alloc: Global, file: &File) -> Result<Option<Refusal>, NoMemory>
    ensures { IfOk result (λ r. r ≡ spec.first (spec.by_statements file.now)) }
{
    let marked = decorator(alloc, file)?;
    let doubled = twice_parameter(alloc, file)?;
    let marks = refused(Rule::Decorator, marked);
    let parameters = refused(Rule::TwiceParameter, doubled);
    let sixth = or_else(parameters, None);
    let fifth = or_else(marks, sixth);
    let all = or_else(by_places(file), fifth);
    Ok(all)
}

fn by_places(file: &File) -> Option<Refusal>
    ensures { result ≡ spec.first (spec.by_places file.now) }
{
    let returned = return_outside(file);
    let broken = break_outside(file);
    let late_line = late_def(file);
    let computed_line = not_constant(file);
    let returns = refused(Rule::ReturnOutside, returned);
    let breaks = refused(Rule::BreakOutside, broken);
    let late = refused(Rule::LateDef, late_line);
    let computed = refused(Rule::NotConstant, computed_line);
    let fourth = or_else(computed, None);
    let third = or_else(late, fourth);
    let second = or_else(breaks, third);
    or_else(returns, second)
}
