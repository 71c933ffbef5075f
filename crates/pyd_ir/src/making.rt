//! The values that operators make of several, and the parts that they take.
ghost use Rattle.std.specs.Prelude.{◌≡◌, IfOk, Ok};
ghost use Rattle.std.specs.Option.{option_copied};
ghost use Rattle.pyd_ops.specs.Answer.{outcome_of, Answers};
ghost use Rattle.pyd_ops.specs.Joining.{fits, tuple_if_fits};
ghost use Rattle.pyd_ops.specs.Ranges.{range_of};
ghost use Rattle.pyd_ops.specs.Sequence.{items};
ghost use Rattle.pyd_meaning.specs.Calls.{range_value};
ghost use Rattle.pyd_ir.specs.Operation as spec;

use crate::answer::{exceed, raise};
use pyd_ops::{Bounds, Span, items, range_of, slice};
use pyd_value::{
    DEEPEST_NESTING, Kind, LARGEST_SIZE, Limit, List, NoMemory, Outcome, Value, nest, size,
    try_copy,
};
use std::alloc::Global;

/// The tuple of these members, which it shares, or `SizeLimit`.
pub(crate) fn tuple(members: &List<Value>, line: u32) -> Result<Outcome, NoMemory>
    ensures { Answers result (tuple_if_fits members.now line) }
{
    let made = Value::Tuple(members.try_clone()?);
    if fits(&made) {
        return Ok(Outcome::Ok(made));
    }
    drop(made);
    Ok(exceed(Limit::Size, line))
}

/// Whether a value is within the limits on size and nesting.
fn fits(a: &Value) -> bool
    ensures { result ≡ fits a.now }
{
    size(a) <= LARGEST_SIZE && nest(a) <= DEEPEST_NESTING
}

/// The tuple of the items of a value, where they are so many. Its size isn't limited: the program
/// sees the members alone.
pub(crate) fn unpack(alloc: Global, count: u32, a: &Value, line: u32) -> Result<Outcome, NoMemory>
    ensures { Answers result (spec.unpack count (items a.now) line) }
{
    match items(alloc, a)? {
        Some(members) if members.len() == count as usize => Ok(Outcome::Ok(Value::Tuple(members))),
        Some(members) => {
            drop(members);
            Ok(raise(Kind::ValueError, line))
        }
        None => Ok(raise(Kind::TypeError, line)),
    }
}

/// The tuple of a range's first number, its step and its count.
pub(crate) fn range(alloc: Global, values: &[Value], line: u32) -> Result<Outcome, NoMemory>
    ensures { Answers result (range_value (range_of values.now line)) }
{
    match range_of(values, line) {
        Ok(span) => Ok(Outcome::Ok(span_value(alloc, span)?)),
        Err(fault) => Ok(Outcome::Fault(fault)),
    }
}

fn span_value(alloc: Global, span: Span) -> Result<Value, NoMemory>
    ensures { IfOk result (λ v. Ok v ≡ range_value (Ok span)) }
{
    let mut numbers = List::new(alloc);
    numbers.add(Value::Int(span.from))?;
    numbers.add(Value::Int(span.step))?;
    numbers.add(Value::Int(span.count))?;
    Ok(Value::Tuple(numbers))
}

/// The part of a value between bounds that may be absent.
pub(crate) fn slice_between(
    alloc: Global,
    a: &Value,
    low: Option<&Value>,
    high: Option<&Value>,
    line: u32,
) -> Result<Outcome, NoMemory>
    ensures { Answers result
        (spec.slice_between (option_copied low.entry) (option_copied high.entry) a.now line) }
{
    let by = bounds(alloc, low, high)?;
    slice(alloc, a, &by, line)
}

fn bounds(alloc: Global, low: Option<&Value>, high: Option<&Value>) -> Result<Bounds, NoMemory>
    ensures { IfOk result
        (λ by. by ≡ record { low = option_copied low.entry; high = option_copied high.entry }) }
{
    let low = copied(alloc, low)?;
    match copied(alloc, high) {
        Ok(high) => Ok(Bounds { low, high }),
        Err(NoMemory) => {
            drop(low);
            Err(NoMemory)
        }
    }
}

fn copied(alloc: Global, a: Option<&Value>) -> Result<Option<Value>, NoMemory>
    ensures { IfOk result (λ copy. copy ≡ option_copied a.entry) }
{
    match a {
        Some(a) => Ok(Some(try_copy(alloc, a)?)),
        None => Ok(None),
    }
}
