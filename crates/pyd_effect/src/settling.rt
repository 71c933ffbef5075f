//! Settling the head of the chain.
ghost use Rattle.std.specs.Prelude.{◌≡◌, ◌↔◌, ℕ, List as Sequence, [], ◌∷◌, false, option_map, IfOk};
ghost use Rattle.std.specs.Option.{option_copied};
ghost use Rattle.pyd_value.specs.declared.value.Value.{Text as TextValue};
ghost use Rattle.pyd_text.specs.Texts.{line};
ghost use Rattle.pyd_meaning.specs.Module as meaning;
ghost use Rattle.pyd_ir.specs.Arguments.{is_composite};
ghost use Rattle.pyd_effect.specs.Settling as spec;
ghost use Rattle.pyd_effect.specs.Waiting.{HasToWait, WaitsFor};

use crate::Settled;
use pyd_ir::{Node, Work};
use pyd_meaning::Ran;
use pyd_text::line_of;
use pyd_value::{End, Fault, List, NoMemory, Outcome, Text, Value, try_copy};
use std::alloc::Global;

/// What the head of the chain puts out and how it ends. `inputs` are the values of its arguments, and
/// `own` is what its own job gave: of a pure node the outcome alone counts, of a call of a function
/// without a mark the lines too, and of any other node neither. It waits exactly where it has a job
/// and `own` is absent, and where it is a print and one of `inputs` is absent.
pub fn settle_head(
    alloc: Global,
    node: &Node,
    inputs: &[Option<Value>],
    own: Option<&Ran>,
) -> Result<Settled, NoMemory>
    requires { is_composite node.now.work ≡ false }
    ensures settled { IfOk result (λ s.
        s ≡ spec.settle_head node.now inputs.now (option_copied own.entry)) }
    ensures waits { IfOk result (λ s. WaitsFor node.now.id s
        ↔ HasToWait node.now.work inputs.now (option_copied own.entry)) }
{
    match &node.work {
        Work::Op { .. } | Work::Read { .. } | Work::Call { .. } => Ok(silent(alloc, node.id, own)),
        Work::Stop(fault) => Ok(Settled::Ended(List::new(alloc), ended_by(*fault))),
        Work::Print(_) => print(alloc, node, inputs),
        Work::Run { .. } => effect(node.id, own),
        Work::Cond { .. }
        | Work::While { .. }
        | Work::For { .. }
        | Work::Pick { .. }
        | Work::Enter { .. } => unreachable!(),
    }
}

/// A pure node puts out nothing, whatever its job printed.
fn silent(alloc: Global, id: u64, own: Option<&Ran>) -> Settled
    ensures { result ≡ spec.settled_or_waits id (option_map spec.silent (option_copied own.entry)) }
{
    match own {
        Some(ran) => settled(List::new(alloc), &ran.outcome),
        None => Settled::Waits(id),
    }
}

/// A call of a function without a mark puts out what it printed.
fn effect(id: u64, own: Option<&Ran>) -> Result<Settled, NoMemory>
    ensures { IfOk result (λ s. s ≡ spec.settled_or_waits id (option_copied own.entry)) }
{
    match own {
        Some(ran) => Ok(settled(ran.lines.try_clone()?, &ran.outcome)),
        None => Ok(Settled::Waits(id)),
    }
}

/// A print puts out its line, unless that is too long.
fn print(alloc: Global, node: &Node, inputs: &[Option<Value>]) -> Result<Settled, NoMemory>
    ensures { IfOk result (λ s. s ≡ spec.settled_or_waits node.now.id
        (option_map (λ vs. spec.print (line vs node.now.line)) (spec.all_there inputs.now))) }
{
    match all_there(alloc, inputs)? {
        Some(values) => print_line(alloc, values.as_slice(), node.line),
        None => Ok(Settled::Waits(node.id)),
    }
}

fn print_line(alloc: Global, values: &[Value], at: u32) -> Result<Settled, NoMemory>
    ensures { IfOk result (λ s. s ≡ spec.settled_ran (spec.print (line values.now at))) }
{
    match line_of(alloc, values, at)? {
        Outcome::Ok(value) => Ok(Settled::Passed(one_line(alloc, value)?)),
        Outcome::Fault(fault) => Ok(Settled::Ended(List::new(alloc), ended_by(fault))),
    }
}

/// A text as the only line.
fn one_line(alloc: Global, value: Value) -> Result<List<Text>, NoMemory>
    requires { (t : Sequence ℕ) × (value ≡ TextValue t) }
    ensures { IfOk result (λ lines. (t : Sequence ℕ) → value ≡ TextValue t → lines ≡ t ∷ []) }
{
    let mut lines = List::new(alloc);
    match value {
        Value::Text(text) => lines.add(text)?,
        Value::Int(_) | Value::Bool(_) | Value::Tuple(_) | Value::None => unreachable!(),
    }
    Ok(lines)
}

/// The values, which are shared, or none where one is absent.
fn all_there(alloc: Global, inputs: &[Option<Value>]) -> Result<Option<List<Value>>, NoMemory>
    ensures { IfOk result (λ values. values ≡ spec.all_there inputs.now) }
{
    let mut values = List::new(alloc);
    for input in inputs {
        let Some(value) = input else {
            return Ok(None);
        };
        values.add(try_copy(alloc, value)?)?;
    }
    Ok(Some(values))
}

fn settled(lines: List<Text>, outcome: &Outcome) -> Settled
    ensures { result ≡ spec.settled lines outcome.now }
{
    match outcome {
        Outcome::Ok(_) => Settled::Passed(lines),
        Outcome::Fault(fault) => Settled::Ended(lines, ended_by(*fault)),
    }
}

fn ended_by(fault: Fault) -> End
    ensures { result ≡ meaning.ended_by fault }
{
    match fault {
        Fault::Raised(kind, line) => End::Raised(kind, line),
        Fault::Limit(limit, line) => End::Limit(limit, line),
    }
}
