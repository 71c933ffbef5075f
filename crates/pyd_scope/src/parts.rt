//! The parts of expressions and of statements, by their places.
ghost use Rattle.std.specs.Prelude.{◌≡◌, [], ◌∷◌, map, slice_get, option_to_list};
ghost use Rattle.std.specs.Option.{option_copied};
ghost use Rattle.pyd_scope.specs.Parting as spec;

use pyd_tree::{Arm, BinOp, Block, CmpOp, Expr, Stmt, Suffix, What};

/// A part of an expression, by its place in the text among those outside brackets. In a conditional
/// expression the first side comes before the test.
pub fn part(e: &Expr, at: u32) -> Option<&Expr>
    ensures { option_copied result ≡ spec.part_at e.now at }
{
    match e {
        Expr::Lit(_) | Expr::Name(_) => None,
        Expr::Tuple(parts) | Expr::And(parts) | Expr::Or(parts) => parts.get(at as usize),
        Expr::Call(_, arguments) => arguments.get(at as usize),
        Expr::Unary(_, operand) => only(operand.get(), at),
        Expr::Chain(first, links) => operand(first.get(), links.as_slice(), at),
        Expr::Compare(first, links) => compared(first.get(), links.as_slice(), at),
        Expr::Power(base, exponent) => match at {
            0 => Some(base.get()),
            1 => Some(exponent.get()),
            _ => None,
        },
        Expr::If(test, first, second) => match at {
            0 => Some(first.get()),
            1 => Some(test.get()),
            2 => Some(second.get()),
            _ => None,
        },
        Expr::Suffixed(base, _) => only(base.get(), at),
    }
}

/// The only part.
fn only(e: &Expr, at: u32) -> Option<&Expr>
    ensures { option_copied result ≡ slice_get (e.now ∷ []) at }
{
    if at == 0 { Some(e) } else { None }
}

fn operand<'e>(first: &'e Expr, links: &'e [(BinOp, Expr)], at: u32) -> Option<&'e Expr>
    ensures { option_copied result ≡ slice_get (first.now ∷ map (λ l. l.1) links.now) at }
{
    if at == 0 {
        Some(first)
    } else {
        right(links, at as usize - 1)
    }
}

/// The right operand of an operator.
fn right(links: &[(BinOp, Expr)], at: usize) -> Option<&Expr>
    ensures { option_copied result ≡ slice_get (map (λ l. l.1) links.now) at }
{
    Some(&links.get(at)?.1)
}

fn compared<'e>(first: &'e Expr, links: &'e [(CmpOp, Expr)], at: u32) -> Option<&'e Expr>
    ensures { option_copied result ≡ slice_get (first.now ∷ map (λ l. l.1) links.now) at }
{
    if at == 0 {
        Some(first)
    } else {
        right_of(links, at as usize - 1)
    }
}

/// The right operand of a comparison.
fn right_of(links: &[(CmpOp, Expr)], at: usize) -> Option<&Expr>
    ensures { option_copied result ≡ slice_get (map (λ l. l.1) links.now) at }
{
    Some(&links.get(at)?.1)
}

/// What stands in brackets behind an expression.
pub fn suffixes(e: &Expr) -> &[Suffix]
    ensures { result.now ≡ spec.suffixes_of e.now }
{
    match e {
        Expr::Suffixed(_, suffixes) => suffixes.as_slice(),
        _ => &[],
    }
}

/// The index or the lower bound in brackets.
pub fn low(suffix: &Suffix) -> Option<&Expr>
    ensures { option_copied result ≡ spec.low suffix.now }
{
    match suffix {
        Suffix::Index(index) => Some(index),
        Suffix::Slice(low, _) => low.as_ref(),
    }
}

/// The upper bound in brackets.
pub fn high(suffix: &Suffix) -> Option<&Expr>
    ensures { option_copied result ≡ spec.high suffix.now }
{
    match suffix {
        Suffix::Index(_) => None,
        Suffix::Slice(_, high) => high.as_ref(),
    }
}

/// An expression in the lines of a statement: of an `if` the test of each arm, of an `assert` the
/// test and the message.
pub fn header(stmt: &Stmt, at: u32) -> Option<&Expr>
    ensures { option_copied result ≡ spec.header_at stmt.now at }
{
    match &stmt.what {
        What::Expr(e) | What::Assign(_, e) | What::Aug(_, _, e) => only(e, at),
        What::While(e, _) | What::For(_, e, _) => only(e, at),
        What::If(arms, _) => test(arms.as_slice(), at),
        What::Return(value) => maybe(value, at),
        What::Assert(test, message) => {
            if at == 0 {
                Some(test)
            } else {
                maybe(message, at - 1)
            }
        }
        What::Break | What::Continue | What::Pass => None,
    }
}

/// The test of an arm.
fn test(arms: &[Arm], at: u32) -> Option<&Expr>
    ensures { option_copied result ≡ slice_get (map spec.test_of arms.now) at }
{
    Some(&arms.get(at as usize)?.test)
}

/// The only part, where it isn't missing.
fn maybe(e: &Option<Expr>, at: u32) -> Option<&Expr>
    ensures { option_copied result ≡ slice_get (option_to_list e.now) at }
{
    match e {
        Some(e) => only(e, at),
        None => None,
    }
}

/// The suite of an arm of an `if`.
pub fn arm_suite(stmt: &Stmt, arm: u32) -> Option<&Block>
    ensures { option_copied result ≡ spec.arm_suite stmt.now arm }
{
    match &stmt.what {
        What::If(arms, _) => Some(&arms.get(arm as usize)?.body),
        _ => None,
    }
}

/// The suite of an `else`.
pub fn else_suite(stmt: &Stmt) -> Option<&Block>
    ensures { option_copied result ≡ spec.else_suite stmt.now }
{
    match &stmt.what {
        What::If(_, otherwise) => otherwise.as_ref(),
        _ => None,
    }
}

/// The suite of a loop.
pub fn loop_suite(stmt: &Stmt) -> Option<&Block>
    ensures { option_copied result ≡ spec.loop_suite stmt.now }
{
    match &stmt.what {
        What::While(_, body) | What::For(_, _, body) => Some(body),
        _ => None,
    }
}
