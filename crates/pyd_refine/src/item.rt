//! What a `for` goes over at a turn: the numbers of a range, or the items of a text or tuple.
ghost use Rattle.std.specs.Prelude.{◌≡◌, ◌≢◌, ◌+ℤ◌, ◌*ℤ◌, int_lt, pos, map, option_map, true, Some, IfOk, IfSome};
ghost use Rattle.pyd_value.specs.declared.value.Value.{out-Value};
ghost use Rattle.pyd_meaning.specs.Loops as loops;
ghost use Rattle.pyd_ops.specs.Integer.{is_within};
ghost use Rattle.pyd_ops.specs.Ranges as ranges;
ghost use Rattle.pyd_ops.specs.Sequence as sequence;
ghost use Rattle.pyd_refine.specs.Found.{seen, at_turn};

use pyd_ops::{Span, item_at};
use pyd_value::{NoMemory, Value};
use std::alloc::Global;

/// What a `for` finds at a turn.
#[derive(Drop)]
pub(crate) enum Found {
    Item(Value),
    /// The turn is past the last item.
    End,
    /// The iterable is no tuple or text, nor a range.
    Nothing,
}

/// Item number `turn` of an iterable, counted from 0, which is a range where a call of `range` gave it.
pub(crate) fn item_at_turn(
    alloc: Global,
    ranged: bool,
    over: &Value,
    turn: u64,
) -> Result<Found, NoMemory>
    ensures { IfOk result (λ found.
        seen found ≡ at_turn turn (loops.items_over ranged over.now)) }
{
    if ranged {
        Ok(range_item(over, turn))
    } else {
        listed_item(alloc, over, turn)
    }
}

/// An item of a text or tuple.
fn listed_item(alloc: Global, over: &Value, turn: u64) -> Result<Found, NoMemory>
    ensures { IfOk result (λ found.
        seen found ≡ at_turn turn (loops.listed (sequence.items over.now))) }
{
    match over {
        Value::Text(_) | Value::Tuple(_) => Ok(or_end(item_at(alloc, over, turn)?)),
        Value::Int(_) | Value::Bool(_) | Value::None => Ok(Found::Nothing),
    }
}

/// An item, or the end where there is none.
fn or_end(item: Option<Value>) -> Found
    ensures { seen result ≡ Some item }
{
    match item {
        Some(item) => Found::Item(item),
        None => Found::End,
    }
}

/// A number of the range that a first number, a step and a count are.
fn range_item(over: &Value, turn: u64) -> Found
    ensures { seen result ≡ at_turn turn (loops.range_items (out-Value over.now)) }
{
    match over {
        Value::Tuple(members) => match range_of_members(members.as_slice()) {
            Some(span) => or_end(number(&span, turn)),
            None => Found::Nothing,
        },
        Value::Int(_) | Value::Bool(_) | Value::Text(_) | Value::None => Found::Nothing,
    }
}

/// The range that a first number, a step and a count are, if they are one.
fn range_of_members(members: &[Value]) -> Option<Span>
    ensures value { option_map (λ span. loops.numbers span span.count) result
        ≡ loops.integers_range (map out-Value members.now) }
    ensures range { IfSome result (λ span. loops.is_range span span.count ≡ true) }
{
    match members {
        [Value::Int(from), Value::Int(step), Value::Int(count)] => {
            let span = Span {
                from: *from,
                step: *step,
                count: *count,
            };
            if is_range(&span) { Some(span) } else { None }
        }
        _ => None,
    }
}

/// Whether so many numbers from a first one by a step are a range: all lie within 128 bits.
fn is_range(span: &Span) -> bool
    ensures { result ≡ loops.is_range span.now span.now.count }
{
    if span.step == 0 || span.count < 0 {
        return false;
    }
    if span.count == 0 {
        return true;
    }
    let last = (span.count - 1).unsigned_abs();
    reaches(span.from, span.step, last)
}

/// Whether number `last` of a range, counted from 0, lies within 128 bits.
fn reaches(from: i128, step: i128, last: u128) -> bool
    requires { step ≢ pos 0 }
    ensures { result ≡ is_within (from +ℤ (pos last *ℤ step)) }
{
    if step > 0 {
        last <= i128::MAX.abs_diff(from) / step.unsigned_abs()
    } else {
        last <= from.abs_diff(i128::MIN) / step.unsigned_abs()
    }
}

/// Number `turn` of a range, counted from 0.
fn number(span: &Span, turn: u64) -> Option<Value>
    requires { loops.is_range span.now span.now.count ≡ true }
    ensures { result ≡ loops.numbers span.now span.now.count turn }
{
    if has_number(span, turn) {
        Some(Value::Int(number_of(span, turn)))
    } else {
        None
    }
}

/// Whether a range has a number with this index, counted from 0.
fn has_number(span: &Span, index: u64) -> bool
    ensures { result ≡ int_lt (pos index) span.now.count }
{
    i128::from(index) < span.count
}

/// A number of a range, by its index.
fn number_of(span: &Span, index: u64) -> i128
    ensures { is_within (ranges.number_at span.now index) ≡ true
        → result ≡ ranges.number_at span.now index }
{
    number_at(span.from, span.step, i128::from(index))
}

/// A number of a range. It lies within 128 bits, though its distance from the first one may not.
fn number_at(from: i128, step: i128, turn: i128) -> i128
    ensures { is_within (from +ℤ (turn *ℤ step)) ≡ true → result ≡ from +ℤ (turn *ℤ step) }
{
    from.wrapping_add(turn.wrapping_mul(step))
}
