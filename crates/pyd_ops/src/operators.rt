//! The operators before one operand and between two (Python Language Reference, sections 6.5 to
//! 6.9).
ghost use Rattle.std.specs.Prelude.{◌≡◌, ◌↔◌, ◌⊎◌, [], IsTrue, Ok};
ghost use Rattle.pyd_value.specs.declared.value.Value.{out-Value};
ghost use Rattle.pyd_value.specs.Shape.{shape_of};
ghost use Rattle.pyd_ops.specs.Answer.{outcome_of, Answers};
ghost use Rattle.pyd_ops.specs.Integer.{positive_part};
ghost use Rattle.pyd_ops.specs.Operators as spec;

use crate::answer::{checked, exceed, raise};
use crate::arithmetic::arithmetic;
use crate::joining::{
    fit_together, fits_repeated, join_members, join_texts, repeat_members, repeat_text,
};
use pyd_value::{BinOp, Kind, Limit, List, NoMemory, Outcome, UnOp, Value, number, truth};
use std::alloc::Global;

/// What an operator before its operand gives: an integer of a number, or for `not` a truth value.
pub fn unary(op: UnOp, a: &Value, line: u32) -> Result<Outcome, NoMemory>
    ensures { result ≡ Ok (outcome_of (spec.unary op a.now line)) }
{
    match op {
        UnOp::Not => Ok(Outcome::Ok(Value::Bool(!truth(a)))),
        _ => Ok(signed(op, number(a), line)),
    }
}

fn signed(op: UnOp, n: Option<i128>, line: u32) -> Outcome
    ensures { result ≡ outcome_of (spec.signed op n line) }
{
    match (op, n) {
        (UnOp::Neg, Some(n)) => checked(n.checked_neg(), line),
        (UnOp::Pos, Some(n)) => Outcome::Ok(Value::Int(n)),
        _ => raise(Kind::TypeError, line),
    }
}

/// What an operator between two operands gives: arithmetic and bits of numbers, the bits of two
/// truth values a truth value, `+` of texts and tuples joined, `*` of one of these and a number
/// repeated.
pub fn binary(
    alloc: Global,
    op: BinOp,
    a: &Value,
    b: &Value,
    line: u32,
) -> Result<Outcome, NoMemory>
    ensures { Answers result (spec.binary op a.now b.now line) }
{
    match op {
        BinOp::Add => add(alloc, a, b, line),
        BinOp::Mul => multiply(alloc, a, b, line),
        BinOp::Mod => Ok(modulo(a, b, line)),
        BinOp::And | BinOp::Or | BinOp::Xor => Ok(bitwise(op, a, b, line)),
        _ => Ok(on_numbers(op, a, b, line)),
    }
}

fn on_numbers(op: BinOp, a: &Value, b: &Value, line: u32) -> Outcome
    ensures { result ≡ outcome_of (spec.on_numbers op (shape_of a.now) (shape_of b.now) line) }
{
    match (number(a), number(b)) {
        (Some(m), Some(n)) => arithmetic(op, m, n, line),
        _ => raise(Kind::TypeError, line),
    }
}

fn add(alloc: Global, a: &Value, b: &Value, line: u32) -> Result<Outcome, NoMemory>
    ensures { Answers result (spec.add (shape_of a.now) (shape_of b.now) line) }
{
    match (a, b) {
        (Value::Text(s), Value::Text(t)) => join_texts(alloc, s, t, line),
        (Value::Tuple(xs), Value::Tuple(ys)) => {
            if fit_together(a, b) {
                Ok(Outcome::Ok(Value::Tuple(join_members(alloc, xs.as_slice(), ys.as_slice())?)))
            } else {
                Ok(exceed(Limit::Size, line))
            }
        }
        _ => Ok(on_numbers(BinOp::Add, a, b, line)),
    }
}

fn multiply(alloc: Global, a: &Value, b: &Value, line: u32) -> Result<Outcome, NoMemory>
    ensures { Answers result (spec.multiply (shape_of a.now) (shape_of b.now) line) }
{
    match (number(a), number(b)) {
        (Some(m), Some(n)) => Ok(arithmetic(BinOp::Mul, m, n, line)),
        (Some(n), None) => repeat_value(alloc, b, positive_part(n), line),
        (None, Some(n)) => repeat_value(alloc, a, positive_part(n), line),
        (None, None) => Ok(raise(Kind::TypeError, line)),
    }
}

/// How often a number repeats.
fn positive_part(n: i128) -> u128
    ensures { result ≡ positive_part n }
{
    if n < 0 { 0 } else { n as u128 }
}

/// A text or tuple so many times over.
fn repeat_value(alloc: Global, a: &Value, n: u128, line: u32) -> Result<Outcome, NoMemory>
    ensures { Answers result (spec.repeat_value (shape_of a.now) n line) }
{
    match a {
        Value::Text(s) => repeat_text(alloc, s, n, line),
        Value::Tuple(members) => {
            if is_nothing(members, n) {
                Ok(Outcome::Ok(Value::Tuple(List::new(alloc))))
            } else if fits_repeated(a, n) {
                Ok(Outcome::Ok(Value::Tuple(repeat_members(alloc, members.as_slice(), n)?)))
            } else {
                Ok(exceed(Limit::Size, line))
            }
        }
        _ => Ok(raise(Kind::TypeError, line)),
    }
}

fn is_nothing(members: &List<Value>, n: u128) -> bool
    ensures { IsTrue result ↔ ((n ≡ 0) ⊎ (members.now ≡ [])) }
{
    n == 0 || members.is_empty()
}

/// A text before `%` would be a format, which the profile doesn't have.
fn modulo(a: &Value, b: &Value, line: u32) -> Outcome
    ensures { result ≡ outcome_of (spec.modulo (shape_of a.now) (shape_of b.now) line) }
{
    match a {
        Value::Text(_) => exceed(Limit::Outside, line),
        _ => on_numbers(BinOp::Mod, a, b, line),
    }
}

/// The bits of two truth values are a truth value, those of other numbers an integer.
fn bitwise(op: BinOp, a: &Value, b: &Value, line: u32) -> Outcome
    ensures { result ≡ outcome_of (spec.bitwise op (out-Value a.now) (out-Value b.now) line) }
{
    match (op, a, b) {
        (BinOp::And, Value::Bool(p), Value::Bool(q)) => Outcome::Ok(Value::Bool(*p && *q)),
        (BinOp::Or, Value::Bool(p), Value::Bool(q)) => Outcome::Ok(Value::Bool(*p || *q)),
        (BinOp::Xor, Value::Bool(p), Value::Bool(q)) => Outcome::Ok(Value::Bool(*p ^ *q)),
        _ => on_numbers(op, a, b, line),
    }
}
