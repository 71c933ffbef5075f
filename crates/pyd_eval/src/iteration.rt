//! What a `for` goes over.
ghost use Rattle.std.specs.Prelude.{◌≡◌, ◌≢◌, ◌+ℤ◌, ◌*ℤ◌, int_lt, pos, map, option_map, true, IfOk, IfSome};
ghost use Rattle.pyd_value.specs.declared.value.Value.{out-Value};
ghost use Rattle.pyd_meaning.specs.Loops as loops;
ghost use Rattle.pyd_meaning.specs.Statement as statement;
ghost use Rattle.pyd_ops.specs.Integer.{is_within};
ghost use Rattle.pyd_ops.specs.Sequence as sequence;
ghost use Rattle.pyd_eval.specs.Frames.{setting};

use crate::activation::Activation;
use pyd_ops::{Span, items};
use pyd_scope::Use;
use pyd_tree::Expr;
use pyd_value::{Builtin, NoMemory, Value};
use std::alloc::Global;

/// Whether an expression is a call of `range`.
pub(crate) fn calls_range(on: &Activation<'_>, e: &Expr) -> bool
    ensures { result ≡ statement.calls_range (setting on.now) e.now }
{
    match e {
        Expr::Call(name, _) => {
            matches!(
                on.program.resolve(on.routine, name),
                Use::Builtin(Builtin::Range)
            )
        }
        _ => false,
    }
}

/// The range of which a call of `range` gave the first number, the step and the count.
pub(crate) fn range_span(over: &Value) -> Option<Span>
    ensures value { option_map (λ span. loops.numbers span span.count) result
        ≡ loops.range_items (out-Value over.now) }
    ensures range { IfSome result (λ span. loops.is_range span span.count ≡ true) }
{
    match over {
        Value::Tuple(members) => span_of(members.as_slice()),
        _ => None,
    }
}

/// The range that a first number, a step and a count are, if they are one.
fn span_of(members: &[Value]) -> Option<Span>
    ensures value { option_map (λ span. loops.numbers span span.count) result
        ≡ loops.integers_range (map out-Value members.now) }
    ensures range { IfSome result (λ span. loops.is_range span span.count ≡ true) }
{
    match members {
        [Value::Int(from), Value::Int(step), Value::Int(count)] => {
            let span = Span {
                from: *from,
                step: *step,
                count: *count,
            };
            if is_range(&span) { Some(span) } else { None }
        }
        _ => None,
    }
}

/// Whether so many numbers from a first one by a step are a range: all lie within 128 bits.
fn is_range(span: &Span) -> bool
    ensures { result ≡ loops.is_range span.now span.now.count }
{
    if span.step == 0 || span.count < 0 {
        return false;
    }
    if span.count == 0 {
        return true;
    }
    let last = (span.count - 1).unsigned_abs();
    reaches(span.from, span.step, last)
}

/// Whether number `last` of a range, counted from 0, lies within 128 bits.
fn reaches(from: i128, step: i128, last: u128) -> bool
    requires { step ≢ pos 0 }
    ensures { result ≡ is_within (from +ℤ (pos last *ℤ step)) }
{
    if step > 0 {
        last <= i128::MAX.abs_diff(from) / step.unsigned_abs()
    } else {
        last <= from.abs_diff(i128::MIN) / step.unsigned_abs()
    }
}

/// Whether a range has a number with this index, counted from 0.
pub(crate) fn has_number(span: &Span, index: u64) -> bool
    ensures { result ≡ int_lt (pos index) span.now.count }
{
    i128::from(index) < span.count
}

/// The number behind one of a range; any number where it lies outside 128 bits.
pub(crate) fn next_number(span: &Span, number: i128) -> i128
    ensures { is_within (number +ℤ span.now.step) ≡ true → result ≡ number +ℤ span.now.step }
{
    number.checked_add(span.step).unwrap_or(number)
}

/// A value of the same items, each of which is found at once: a text that isn't ASCII becomes the
/// tuple of its characters. None where there are no items.
pub(crate) fn indexed(alloc: Global, over: Value) -> Result<Option<Value>, NoMemory>
    ensures { IfOk result (λ found.
        option_map sequence.item_at found ≡ loops.listed (sequence.items over)) }
{
    match over {
        Value::Tuple(members) => Ok(Some(Value::Tuple(members))),
        Value::Text(text) if text.is_ascii() => Ok(Some(Value::Text(text))),
        other => {
            let found = items(alloc, &other);
            drop(other);
            Ok(found?.map(Value::Tuple))
        }
    }
}
