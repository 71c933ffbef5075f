//! Chains of numbers of 64 bits: names and literals, computed with no value between.
ghost use Rattle.std.specs.Prelude.{◌≡◌, ◌+ℤ◌, ◌-ℤ◌, ◌*ℤ◌, FitsSigned, SomeIff, IfSome, option_map};
ghost use Rattle.std.specs.Int.{w64};
ghost use Rattle.pyd_value.specs.declared.value.Value.{Int};
ghost use Rattle.pyd_eval.specs.Small.{IsNumber, IsAnswer, IsChain};

use crate::activation::Activation;
use crate::reading::read;
use pyd_tree::Expr;
use pyd_value::{BinOp, Value};

/// A number of 64 bits.
#[derive(Clone, Copy)]
pub(crate) struct Number {
    pub value: i64,
}

impl Number {
    pub(crate) fn to_value(&self) -> Value
        ensures { result ≡ Int self.now.value }
    {
        Value::Int(i128::from(self.value))
    }
}

/// The number that a chain of literals and names is, where each on the way fits.
pub(crate) fn number_of_chain(
    on: &Activation<'_>,
    first: &Expr,
    links: &[(BinOp, Expr)],
    line: u32,
    slots: &[Option<Value>],
) -> Option<Number>
    ensures { IfSome result (λ z. IsChain on.now first.now links.now line slots.now z.value) }
{
    let mut left = number_in(on, first, line, slots)?;
    for link in links {
        let right = number_in(on, &link.1, line, slots)?;
        left = operate(link.0, &left, &right)?;
    }
    Some(left)
}

/// The number that a literal or a name is.
fn number_in(on: &Activation<'_>, e: &Expr, line: u32, slots: &[Option<Value>]) -> Option<Number>
    ensures { IfSome result (λ z. IsNumber on.now e.now line slots.now z.value) }
{
    match e {
        Expr::Lit(v) => narrow(v),
        Expr::Name(name) => match read(on, name, line, slots) {
            Ok(got) => {
                let number = narrow(got.value());
                drop(got);
                number
            }
            Err(_) => None,
        },
        _ => None,
    }
}

fn narrow(v: &Value) -> Option<Number>
    ensures { IfSome result (λ z. v.now ≡ Int z.value) }
{
    match v {
        Value::Int(n) => fitted(*n),
        _ => None,
    }
}

fn fitted(n: i128) -> Option<Number>
    ensures { IfSome result (λ z. z.value ≡ n) }
{
    match i64::try_from(n) {
        Ok(value) => Some(Number { value }),
        Err(_) => None,
    }
}

/// A sum, difference or product that fits.
fn operate(op: BinOp, a: &Number, b: &Number) -> Option<Number>
    ensures { IfSome result (λ z. IsAnswer op a.now.value b.now.value z.value) }
{
    match op {
        BinOp::Add => kept(add(a, b)),
        BinOp::Sub => kept(subtract(a, b)),
        BinOp::Mul => kept(multiply(a, b)),
        _ => None,
    }
}

fn kept(value: Option<i64>) -> Option<Number>
    ensures { option_map (λ z. z.value) result ≡ value }
{
    match value {
        Some(value) => Some(Number { value }),
        None => None,
    }
}

fn add(a: &Number, b: &Number) -> Option<i64>
    ensures { SomeIff result (FitsSigned w64 (a.now.value +ℤ b.now.value))
        (a.now.value +ℤ b.now.value) }
{
    a.value.checked_add(b.value)
}

fn subtract(a: &Number, b: &Number) -> Option<i64>
    ensures { SomeIff result (FitsSigned w64 (a.now.value -ℤ b.now.value))
        (a.now.value -ℤ b.now.value) }
{
    a.value.checked_sub(b.value)
}

fn multiply(a: &Number, b: &Number) -> Option<i64>
    ensures { SomeIff result (FitsSigned w64 (a.now.value *ℤ b.now.value))
        (a.now.value *ℤ b.now.value) }
{
    a.value.checked_mul(b.value)
}
