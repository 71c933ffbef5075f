//! `sum` (Python Standard Library, "Built-in Functions").
ghost use Rattle.std.specs.Prelude.{◌≡◌, Ok, Err, IfOk, IfErr};
ghost use Rattle.pyd_value.specs.declared.value.Value.{Int};
ghost use Rattle.pyd_value.specs.declared.operator.BinOp.TheVariants.{Add};
ghost use Rattle.pyd_value.specs.Shape.{text};
ghost use Rattle.pyd_ops.specs.Answer.{outcome_of, Answers};
ghost use Rattle.pyd_ops.specs.Sequence.{items, items_in};
ghost use Rattle.pyd_ops.specs.Operators.{binary};
ghost use Rattle.pyd_ops.specs.Calls as spec;

use crate::answer::raise;
use crate::operators::binary;
use pyd_value::{
    BinOp, Boxed, Fault, Kind, Limit, NoMemory, Outcome, Text, Value, number, try_copy,
};
use std::alloc::Global;

/// `+` of each item from the left, on a start that isn't a text.
pub(crate) fn sum(alloc: Global, a: &Value, start: &Value, line: u32) -> Result<Outcome, NoMemory>
    ensures { Answers result (spec.sum start.now (items a.now) line) }
{
    match (a, start) {
        (_, Value::Text(_)) => Ok(raise(Kind::TypeError, line)),
        (Value::Text(text), _) => sum_text(alloc, text, start, line),
        (Value::Tuple(members), _) => sum_items(alloc, members.as_slice(), start, line),
        _ => Ok(raise(Kind::TypeError, line)),
    }
}

/// Only the empty text has a sum, since no start can be added to a character.
fn sum_text(alloc: Global, s: &Text, start: &Value, line: u32) -> Result<Outcome, NoMemory>
    ensures { Answers result (spec.sum start.now (items_in (text s.now)) line) }
{
    match start {
        Value::Text(_) => Ok(raise(Kind::TypeError, line)),
        _ if s.is_empty() => Ok(Outcome::Ok(try_copy(alloc, start)?)),
        _ => Ok(raise(Kind::TypeError, line)),
    }
}

fn sum_items(alloc: Global, items: &[Value], start: &Value, line: u32) -> Result<Outcome, NoMemory>
    ensures { Answers result (spec.sum_items start.now items.now line) }
{
    match (number(start), items) {
        (Some(n), [_, ..]) => Ok(sum_numbers(items, n, line)),
        _ => sum_values(alloc, items, start, line),
    }
}

/// The sum of numbers, which takes no memory.
fn sum_numbers(items: &[Value], start: i128, line: u32) -> Outcome
    ensures { result ≡ outcome_of (spec.sum_items (Int start) items.now line) }
{
    let mut total = start;
    for item in items {
        match add_number(total, item, line) {
            Ok(sum) => total = sum,
            Err(fault) => return Outcome::Fault(fault),
        }
    }
    Outcome::Ok(Value::Int(total))
}

fn add_number(total: i128, item: &Value, line: u32) -> Result<i128, Fault>
    ensures ok { IfOk result (λ sum. binary Add (Int total) item.now line ≡ Ok (Int sum)) }
    ensures err { IfErr result (λ fault. binary Add (Int total) item.now line ≡ Err fault) }
{
    match number(item) {
        Some(n) => match total.checked_add(n) {
            Some(sum) => Ok(sum),
            None => Err(Fault::Limit(Limit::Int, line)),
        },
        None => Err(Fault::Raised(Kind::TypeError, line)),
    }
}

fn sum_values(alloc: Global, items: &[Value], start: &Value, line: u32) -> Result<Outcome, NoMemory>
    ensures { Answers result (spec.sum_items start.now items.now line) }
{
    let mut total = Boxed::new(alloc, try_copy(alloc, start)?)?;
    for item in items {
        match binary(alloc, BinOp::Add, total.get(), item, line)? {
            Outcome::Ok(more) => total = Boxed::new(alloc, more)?,
            Outcome::Fault(fault) => return Ok(Outcome::Fault(fault)),
        }
    }
    Ok(Outcome::Ok(total.into_inner()))
}
