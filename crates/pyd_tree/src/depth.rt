//! How deep expressions stand in expressions.
ghost use Rattle.std.specs.Prelude.{◌≡◌, ◌-◌, ◌^◌, min, max, map, option_map};
ghost use Rattle.pyd_value.specs.Size.{greatest};
ghost use Rattle.pyd_tree.specs.Nesting as spec;

use crate::{BinOp, CmpOp, Expr, Suffix};

/// How deep expressions stand in this one, cut to 2^32 - 1: 0 for a name or a literal, else 1 more
/// than the greatest of its direct parts. Parentheses count nothing.
#[cycle(nesting)]
#[tactic(auto, using(crate::proofs::Levels::chain, crate::proofs::Levels::compare))]
pub fn nesting(e: &Expr) -> u32
    ensures { result ≡ min (spec.nesting e.now) (2 ^ 32 - 1) }
{
    match e {
        Expr::Lit(_) | Expr::Name(_) => 0,
        Expr::Tuple(members) | Expr::And(members) | Expr::Or(members) => {
            greatest(members.as_slice()).saturating_add(1)
        }
        Expr::Call(_, arguments) => greatest(arguments.as_slice()).saturating_add(1),
        Expr::Unary(_, operand) => nesting(operand.get()).saturating_add(1),
        Expr::Power(base, exponent) => nesting(base.get())
            .max(nesting(exponent.get()))
            .saturating_add(1),
        Expr::If(test, yes, no) => nesting(test.get())
            .max(nesting(yes.get()))
            .max(nesting(no.get()))
            .saturating_add(1),
        Expr::Chain(first, links) => nesting(first.get())
            .max(greatest_operand(links.as_slice()))
            .saturating_add(1),
        Expr::Compare(first, links) => nesting(first.get())
            .max(greatest_compared(links.as_slice()))
            .saturating_add(1),
        Expr::Suffixed(base, suffixes) => nesting(base.get())
            .max(greatest_suffix(suffixes.as_slice()))
            .saturating_add(1),
    }
}

/// The greatest of some expressions.
#[cycle(nesting)]
fn greatest(exprs: &[Expr]) -> u32
    ensures { result ≡ min (greatest (map spec.nesting exprs.now)) (2 ^ 32 - 1) }
{
    let mut deepest: u32 = 0;
    for expr in exprs {
        deepest = deepest.max(nesting(expr));
    }
    deepest
}

/// The greatest of the right operands of operators.
#[cycle(nesting)]
fn greatest_operand(links: &[(BinOp, Expr)]) -> u32
    ensures { result ≡ min (greatest (map (λ l. spec.nesting l.1) links.now)) (2 ^ 32 - 1) }
{
    let mut deepest: u32 = 0;
    for link in links {
        deepest = deepest.max(nesting(&link.1));
    }
    deepest
}

/// The greatest of the right operands of comparisons.
#[cycle(nesting)]
fn greatest_compared(links: &[(CmpOp, Expr)]) -> u32
    ensures { result ≡ min (greatest (map (λ l. spec.nesting l.1) links.now)) (2 ^ 32 - 1) }
{
    let mut deepest: u32 = 0;
    for link in links {
        deepest = deepest.max(nesting(&link.1));
    }
    deepest
}

/// The greatest of what stands in brackets.
#[cycle(nesting)]
fn greatest_suffix(suffixes: &[Suffix]) -> u32
    ensures { result ≡ min (greatest (map spec.suffix_nesting suffixes.now)) (2 ^ 32 - 1) }
{
    let mut deepest: u32 = 0;
    for suffix in suffixes {
        deepest = deepest.max(in_brackets(suffix));
    }
    deepest
}

#[cycle(nesting)]
fn in_brackets(suffix: &Suffix) -> u32
    ensures { result ≡ min (spec.suffix_nesting suffix.now) (2 ^ 32 - 1) }
{
    match suffix {
        Suffix::Index(index) => nesting(index),
        Suffix::Slice(lower, upper) => bound(lower).max(bound(upper)),
    }
}

/// A bound of a slice, 0 where it is missing.
#[cycle(nesting)]
fn bound(expr: &Option<Expr>) -> u32
    ensures { result ≡ min (spec.or_zero (option_map spec.nesting expr.now)) (2 ^ 32 - 1) }
{
    match expr {
        Some(expr) => nesting(expr),
        None => 0,
    }
}
