//! What goes out of a head, and what it leaves, from the records of the desk.
ghost use Rattle.std.specs.Prelude.{◌≡◌, ℕ, List as Sequence, Some, None, Option, IfOk, get_or, map};
ghost use Rattle.std.specs.Option.{option_copied};
ghost use Rattle.pyd_value.specs.declared.value.Value.{Value as SpecValue};
ghost use Rattle.pyd_value.specs.declared.fault.Outcome.TheVariants as outcome;
ghost use Rattle.pyd_meaning.specs.declared.ran.Ran.{Ran as SpecRan};
ghost use Rattle.pyd_ir.specs.Arguments.{is_pure};
ghost use Rattle.pyd_ir.specs.Inputs.{value_of};
ghost use Rattle.pyd_effect.specs.Settling.{given_by};
ghost use Rattle.pyd_desk.specs.Passing.{kept_of};
ghost use Rattle.pyd_desk.specs.Reading.{given_of};
ghost use Rattle.pyd_core.specs.Settling as spec;

use crate::settling::{Leaves, Settling};
use pyd_desk::{Desk, is_composite};
use pyd_effect::{Settled, settle_head};
use pyd_ir::{Arg, Node, Work};
use pyd_meaning::Ran;
use pyd_value::{Boxed, List, NoMemory, Outcome, Text, Value, try_copy};
use std::alloc::Global;

/// What settles a head by what the desk has; none where it waits, and of a composite.
pub(crate) fn prepare_head(
    alloc: Global,
    desk: &Desk,
    node: &Node,
) -> Result<Option<Settling>, NoMemory>
    ensures { IfOk result (λ found. found ≡ spec.settling_at desk.now node.now) }
{
    let inputs = inputs(alloc, desk, &node.work)?;
    let own = record(alloc, desk, node.id)?;
    match &own {
        Some(ran) => settling(alloc, node, inputs.as_slice(), Some(ran.get())),
        None => settling(alloc, node, inputs.as_slice(), None),
    }
}

/// The values of the arguments of a print, as far as they are there.
fn inputs(alloc: Global, desk: &Desk, work: &Work) -> Result<List<Option<Value>>, NoMemory>
    ensures { IfOk result (λ inputs. inputs ≡ spec.inputs_of (given_of desk.now) work.now) }
{
    match work {
        Work::Print(args) => values(alloc, desk, args.as_slice()),
        Work::Op { .. }
        | Work::Read { .. }
        | Work::Call { .. }
        | Work::Stop(_)
        | Work::Run { .. }
        | Work::Cond { .. }
        | Work::While { .. }
        | Work::For { .. }
        | Work::Pick { .. }
        | Work::Enter { .. } => Ok(List::new(alloc)),
    }
}

/// The values of arguments, as far as they are there.
fn values(alloc: Global, desk: &Desk, args: &[Arg]) -> Result<List<Option<Value>>, NoMemory>
    ensures { IfOk result (λ values. values ≡ map (value_of (given_of desk.now)) args.now) }
{
    let mut values = List::new(alloc);
    for arg in args {
        values.add(desk.value(alloc, arg)?)?;
    }
    Ok(values)
}

/// The record of a node, which is shared.
fn record(alloc: Global, desk: &Desk, node: u64) -> Result<Option<Boxed<Ran>>, NoMemory>
    ensures { IfOk result (λ ran. ran ≡ spec.record_at desk.now node) }
{
    match driver_record(desk.driver.as_slice(), node) {
        Some(ran) => Ok(Some(shared(alloc, &ran.outcome, ran.lines.try_clone()?)?)),
        None => match desk.outcome(node) {
            Some(outcome) => Ok(Some(shared(alloc, outcome, List::new(alloc))?)),
            None => Ok(None),
        },
    }
}

/// What the driver keeps of a node.
fn driver_record(driver: &[Option<Boxed<Ran>>], node: u64) -> Option<&Ran>
    ensures { option_copied result ≡ get_or driver.now node None }
{
    match driver.get(node as usize) {
        Some(Some(ran)) => Some(ran.get()),
        Some(None) => None,
        None => None,
    }
}

/// An outcome, which is shared, with lines.
fn shared(alloc: Global, outcome: &Outcome, lines: List<Text>) -> Result<Boxed<Ran>, NoMemory>
    ensures { IfOk result (λ ran. ran ≡ record { outcome = outcome.now; lines = lines }) }
{
    match outcome {
        Outcome::Ok(value) => boxed(alloc, Outcome::Ok(try_copy(alloc, value)?), lines),
        Outcome::Fault(fault) => boxed(alloc, Outcome::Fault(*fault), lines),
    }
}

/// An outcome with lines, in memory of its own.
fn boxed(alloc: Global, outcome: Outcome, lines: List<Text>) -> Result<Boxed<Ran>, NoMemory>
    ensures { IfOk result (λ ran. ran ≡ record { outcome = outcome; lines = lines }) }
{
    Boxed::new(alloc, Ran { outcome, lines })
}

/// What settles a node with these inputs and this record.
fn settling(
    alloc: Global,
    node: &Node,
    inputs: &[Option<Value>],
    own: Option<&Ran>,
) -> Result<Option<Settling>, NoMemory>
    ensures { IfOk result (λ found.
        found ≡ spec.settling_with node.now inputs.now (option_copied own.entry)) }
{
    if is_composite(&node.work) {
        return Ok(None);
    }
    match settle_head(alloc, node, inputs, own)? {
        Settled::Passed(lines) => {
            let leaves = Leaves::Passed(kept(alloc, &node.work, own)?);
            Ok(Some(Settling { lines, leaves }))
        }
        Settled::Ended(lines, end) => {
            let leaves = Leaves::Ended(end);
            Ok(Some(Settling { lines, leaves }))
        }
        Settled::Waits(_) => Ok(None),
    }
}

/// What the driver keeps of a node with this record, where it gives a value.
fn kept(alloc: Global, work: &Work, own: Option<&Ran>) -> Result<Option<Boxed<Ran>>, NoMemory>
    ensures { IfOk result (λ kept. (at : ℕ) (inputs : Sequence (Option SpecValue))
        (ran : SpecRan) (v : SpecValue)
        → given_by work.now at inputs (option_copied own.entry) ≡ Some ran
        → ran.outcome ≡ outcome.Ok v → kept ≡ kept_of (is_pure work.now) v) }
{
    match work {
        Work::Print(_) => Ok(Some(boxed(alloc, Outcome::Ok(Value::None), List::new(alloc))?)),
        Work::Run { .. } => match own {
            Some(ran) => Ok(Some(shared(alloc, &ran.outcome, List::new(alloc))?)),
            None => Ok(None),
        },
        Work::Op { .. }
        | Work::Read { .. }
        | Work::Call { .. }
        | Work::Stop(_)
        | Work::Cond { .. }
        | Work::While { .. }
        | Work::For { .. }
        | Work::Pick { .. }
        | Work::Enter { .. } => Ok(None),
    }
}
