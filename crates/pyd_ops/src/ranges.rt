//! The numbers of a `range` (Python Standard Library, "Ranges").
ghost use Rattle.std.specs.Prelude.{◌≡◌, ◌≢◌, pos, ◌-ℤ◌, [], ◌∷◌};
ghost use Rattle.pyd_ops.specs.Integer.{positive_part};
ghost use Rattle.pyd_ops.specs.Ranges as spec;

use pyd_value::{Fault, Kind, Value, number};

/// The numbers `from`, `from + step` and so on, `count` of them.
#[derive(Clone, Copy, Debug, PartialEq, Eq)]
pub struct Span {
    pub from: i128,
    pub step: i128,
    pub count: i128,
}

/// The numbers of `range` with these arguments: an end, a beginning and an end, or these and a
/// step. `TypeError` where they are fewer or more, or one isn't a number, else `ValueError` where
/// the step is 0. A count above 2^127 - 1 is cut to it.
pub fn range_of(args: &[Value], line: u32) -> Result<Span, Fault>
    ensures { result ≡ spec.range_of args.now line }
{
    match args {
        [end] => range_of_numbers(Some(0), number(end), Some(1), line),
        [from, end] => range_of_numbers(number(from), number(end), Some(1), line),
        [from, end, step] => range_of_numbers(number(from), number(end), number(step), line),
        _ => Err(Fault::Raised(Kind::TypeError, line)),
    }
}

fn range_of_numbers(
    from: Option<i128>,
    end: Option<i128>,
    step: Option<i128>,
    line: u32,
) -> Result<Span, Fault>
    ensures { result ≡ spec.range_of_numbers (from ∷ end ∷ step ∷ []) line }
{
    match (from, end, step) {
        (Some(from), Some(end), Some(step)) => span_of(from, end, step, line),
        _ => Err(Fault::Raised(Kind::TypeError, line)),
    }
}

fn span_of(from: i128, end: i128, step: i128, line: u32) -> Result<Span, Fault>
    ensures { result ≡ spec.span_of from end step line }
{
    if step == 0 {
        return Err(Fault::Raised(Kind::ValueError, line));
    }
    let count = count(from, end, step).min(i128::MAX as u128) as i128;
    Ok(Span { from, step, count })
}

/// How many numbers come before the end.
fn count(from: i128, end: i128, step: i128) -> u128
    requires { step ≢ pos 0 }
    ensures { result ≡ spec.count from end step }
{
    if step < 0 {
        distance(end, from).div_ceil(step.unsigned_abs())
    } else {
        distance(from, end).div_ceil(step.unsigned_abs())
    }
}

/// How far the second number lies above the first, or 0.
fn distance(low: i128, high: i128) -> u128
    ensures { result ≡ positive_part (high -ℤ low) }
{
    if low < high { low.abs_diff(high) } else { 0 }
}
