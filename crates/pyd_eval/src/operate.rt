//! Operators on what expressions gave.
ghost use Rattle.std.specs.Prelude.{◌≡◌, IfOk};
ghost use Rattle.pyd_ops.specs.Operators as operators;
ghost use Rattle.pyd_ops.specs.Comparing as comparing;
ghost use Rattle.pyd_ops.specs.Indexing as indexing;
ghost use Rattle.pyd_ops.specs.Joining as joining;
ghost use Rattle.pyd_eval.specs.Given.{value_of, seen};

use crate::got::{Got, given};
use pyd_ops::{Bounds, binary, compare, index, slice, unary};
use pyd_value::{
    BinOp, CmpOp, DEEPEST_NESTING, Fault, LARGEST_SIZE, Limit, List, NoMemory, UnOp, Value, nest,
    size,
};
use std::alloc::Global;

/// An operator before an operand, which is dropped.
pub(crate) fn apply_unary<'a>(
    op: UnOp,
    operand: Got<'_>,
    line: u32,
) -> Result<Result<Got<'a>, Fault>, NoMemory>
    ensures { IfOk result (λ got. seen got
        ≡ operators.unary op (value_of operand.entry) line) }
{
    let answer = unary(op, operand.value(), line);
    drop(operand);
    Ok(given(answer?))
}

/// An operator between two operands, which are dropped.
pub(crate) fn apply<'a>(
    alloc: Global,
    op: BinOp,
    left: Got<'_>,
    right: Got<'_>,
    line: u32,
) -> Result<Result<Got<'a>, Fault>, NoMemory>
    ensures { IfOk result (λ got. seen got
        ≡ operators.binary op (value_of left.entry) (value_of right.entry) line) }
{
    let answer = binary(alloc, op, left.value(), right.value(), line);
    drop(left);
    drop(right);
    Ok(given(answer?))
}

/// An operator between two operands, of which the right one is dropped.
pub(crate) fn apply_to<'a>(
    alloc: Global,
    op: BinOp,
    left: &Got<'_>,
    right: Got<'_>,
    line: u32,
) -> Result<Result<Got<'a>, Fault>, NoMemory>
    ensures { IfOk result (λ got. seen got
        ≡ operators.binary op (value_of left.now) (value_of right.entry) line) }
{
    let answer = binary(alloc, op, left.value(), right.value(), line);
    drop(right);
    Ok(given(answer?))
}

/// A comparison of two operands.
#[tactic(auto, using(crate::proofs::Expressions::answer_of))]
pub(crate) fn apply_comparison<'a>(
    op: CmpOp,
    left: &Got<'_>,
    right: &Got<'_>,
    line: u32,
) -> Result<Got<'a>, Fault>
    ensures { seen result
        ≡ comparing.compare op (value_of left.now) (value_of right.now) line }
{
    given(compare(op, left.value(), right.value(), line))
}

/// The item of a value at an index, which is dropped.
#[tactic(auto, using(crate::proofs::Expressions::answer_of))]
pub(crate) fn apply_index<'a>(
    alloc: Global,
    base: &Got<'_>,
    at: Got<'_>,
    line: u32,
) -> Result<Result<Got<'a>, Fault>, NoMemory>
    ensures { IfOk result (λ got. seen got
        ≡ indexing.index (value_of base.now) (value_of at.entry) line) }
{
    let answer = index(alloc, base.value(), at.value(), line);
    drop(at);
    Ok(given(answer?))
}

/// The part of a value between two bounds, which are dropped.
pub(crate) fn apply_slice<'a>(
    alloc: Global,
    base: &Got<'_>,
    low: Option<Value>,
    high: Option<Value>,
    line: u32,
) -> Result<Result<Got<'a>, Fault>, NoMemory>
    ensures { IfOk result (λ got. seen got
        ≡ indexing.slice (value_of base.now) (record { low = low; high = high }) line) }
{
    let bounds = Bounds { low, high };
    let answer = slice(alloc, base.value(), &bounds, line);
    drop(bounds);
    Ok(given(answer?))
}

/// The tuple of these values, or `SizeLimit` where it is too large or nests too deep.
pub(crate) fn tuple<'a>(values: List<Value>, line: u32) -> Result<Got<'a>, Fault>
    ensures { seen result ≡ joining.tuple_if_fits values line }
{
    let tuple = Value::Tuple(values);
    if size(&tuple) > LARGEST_SIZE || nest(&tuple) > DEEPEST_NESTING {
        drop(tuple);
        return Err(Fault::Limit(Limit::Size, line));
    }
    Ok(Got::Own(tuple))
}
