//! Literals: INT, `-` before INT, STR, `True`, `False`, `None`, and tuples of literals (Python Language Reference, section 2.5).
ghost use Rattle.std.specs.Prelude.{◌≡◌, map, is_some, IfOk};
ghost use Rattle.pyd_names.specs.Literal as spec;

use pyd_tree::{Expr, UnOp};
use pyd_value::{List, NoMemory, Value, try_copy};
use std::alloc::Global;

/// The value of an expression that is a literal, or none.
#[cycle(literals)]
pub fn literal(alloc: Global, e: &Expr) -> Result<Option<Value>, NoMemory>
    ensures { IfOk result (λ value. value ≡ spec.literal e.now) }
{
    match e {
        Expr::Lit(value) => Ok(Some(try_copy(alloc, value)?)),
        Expr::Unary(UnOp::Neg, operand) => Ok(negated(operand.get())),
        Expr::Tuple(members) => literals(alloc, members.as_slice()),
        Expr::Unary(UnOp::Pos | UnOp::Not, _)
        | Expr::Name(_)
        | Expr::Chain(_, _)
        | Expr::Power(_, _)
        | Expr::And(_)
        | Expr::Or(_)
        | Expr::Compare(_, _)
        | Expr::If(_, _, _)
        | Expr::Call(_, _)
        | Expr::Suffixed(_, _) => Ok(None),
    }
}

/// The tuple of expressions that are all literals, or none.
#[cycle(literals)]
fn literals(alloc: Global, members: &[Expr]) -> Result<Option<Value>, NoMemory>
    ensures { IfOk result (λ value. value ≡ spec.literal_tuple members.now) }
{
    let mut values = List::new(alloc);
    for member in members {
        match literal(alloc, member)? {
            Some(value) => values.add(value)?,
            None => return Ok(None),
        }
    }
    Ok(Some(Value::Tuple(values)))
}

/// The negative of an INT, or none.
fn negated(e: &Expr) -> Option<Value>
    ensures { result ≡ spec.value_in (spec.negated (spec.form_of e.now)) }
{
    match e {
        Expr::Lit(Value::Int(n)) if *n >= 0 => Some(Value::Int(-*n)),
        _ => None,
    }
}

/// Whether an expression is a literal.
#[cycle(tests)]
pub fn is_literal(e: &Expr) -> bool
    ensures { result ≡ is_some (spec.literal e.now) }
{
    match e {
        Expr::Lit(_) => true,
        Expr::Unary(UnOp::Neg, operand) => is_number(operand.get()),
        Expr::Tuple(members) => are_literals(members.as_slice()),
        Expr::Unary(UnOp::Pos | UnOp::Not, _)
        | Expr::Name(_)
        | Expr::Chain(_, _)
        | Expr::Power(_, _)
        | Expr::And(_)
        | Expr::Or(_)
        | Expr::Compare(_, _)
        | Expr::If(_, _, _)
        | Expr::Call(_, _)
        | Expr::Suffixed(_, _) => false,
    }
}

/// Whether all are literals.
#[cycle(tests)]
fn are_literals(members: &[Expr]) -> bool
    ensures { result ≡ is_some (spec.values_in (map spec.form_of members.now)) }
{
    for member in members {
        if !is_literal(member) {
            return false;
        }
    }
    true
}

/// Whether an expression is an INT.
fn is_number(e: &Expr) -> bool
    ensures { result ≡ is_some (spec.value_in (spec.negated (spec.form_of e.now))) }
{
    match e {
        Expr::Lit(Value::Int(n)) => *n >= 0,
        _ => false,
    }
}
