//! How many expressions there are in one, itself and its parts at every depth.
ghost use Rattle.std.specs.Prelude.{◌≡◌, ◌+◌, map, option_map, IfOk};
ghost use Rattle.pyd_tree.specs.declared.file.File.{File};
ghost use Rattle.pyd_value.specs.Size.{total};
ghost use Rattle.pyd_translate.specs.Expressions as spec;

use crate::numbers::{next, plus};
use pyd_tree::{BinOp, CmpOp, Expr, Suffix};
use pyd_value::NoMemory;

/// How many expressions there are in one.
#[cycle(count)]
pub(crate) fn count(e: &Expr) -> Result<u32, NoMemory>
    ensures { IfOk result (λ n. (file : File) → n ≡ (spec.unfolded file e.now).count) }
{
    match e {
        Expr::Lit(_) | Expr::Name(_) => Ok(1),
        Expr::Tuple(es) | Expr::And(es) | Expr::Or(es) | Expr::Call(_, es) => {
            next(count_each(es.as_slice())?)
        }
        Expr::Unary(_, e) => next(count(e.get())?),
        Expr::Chain(first, links) => {
            next(plus(count(first.get())?, count_operands(links.as_slice())?)?)
        }
        Expr::Power(base, exponent) => next(plus(count(base.get())?, count(exponent.get())?)?),
        Expr::Compare(first, links) => {
            next(plus(count(first.get())?, count_compared(links.as_slice())?)?)
        }
        Expr::If(test, first, second) => {
            let sides = plus(count(test.get())?, count(second.get())?)?;
            next(plus(count(first.get())?, sides)?)
        }
        Expr::Suffixed(base, suffixes) => {
            next(plus(count(base.get())?, count_suffixes(suffixes.as_slice())?)?)
        }
    }
}

/// How many there are in several.
#[cycle(count)]
pub(crate) fn count_each(es: &[Expr]) -> Result<u32, NoMemory>
    ensures { IfOk result (λ n. (file : File) → n ≡ spec.counts (map (spec.unfolded file) es.now)) }
{
    let mut total = 0;
    for e in es {
        total = plus(total, count(e)?)?;
    }
    Ok(total)
}

/// How many there are in the right operands of operators.
#[cycle(count)]
fn count_operands(links: &[(BinOp, Expr)]) -> Result<u32, NoMemory>
    ensures { IfOk result (λ n. (file : File) →
        n ≡ spec.operand_counts (map (λ l. (l.0, spec.unfolded file l.1)) links.now)) }
{
    let mut total = 0;
    for link in links {
        total = plus(total, count(&link.1)?)?;
    }
    Ok(total)
}

/// How many there are in the right operands of comparisons.
#[cycle(count)]
pub(crate) fn count_compared(links: &[(CmpOp, Expr)]) -> Result<u32, NoMemory>
    ensures { IfOk result (λ n. (file : File) →
        n ≡ spec.operand_counts (map (λ l. (l.0, spec.unfolded file l.1)) links.now)) }
{
    let mut total = 0;
    for link in links {
        total = plus(total, count(&link.1)?)?;
    }
    Ok(total)
}

/// How many there are in several pairs of brackets.
#[cycle(count)]
fn count_suffixes(suffixes: &[Suffix]) -> Result<u32, NoMemory>
    ensures { IfOk result (λ n. (file : File) →
        n ≡ total (map (λ s. s.count) (map (spec.unfolded_suffix file) suffixes.now))) }
{
    let mut total = 0;
    for suffix in suffixes {
        total = plus(total, count_suffix(suffix)?)?;
    }
    Ok(total)
}

/// How many there are in one pair of brackets.
#[cycle(count)]
pub(crate) fn count_suffix(suffix: &Suffix) -> Result<u32, NoMemory>
    ensures { IfOk result (λ n. (file : File) → n ≡ (spec.unfolded_suffix file suffix.now).count) }
{
    match suffix {
        Suffix::Index(e) => count(e),
        Suffix::Slice(low, high) => plus(count_bound(low)?, count_bound(high)?),
    }
}

/// How many there are in a bound that may be missing.
#[cycle(count)]
pub(crate) fn count_bound(bound: &Option<Expr>) -> Result<u32, NoMemory>
    ensures { IfOk result (λ n. (file : File) →
        n ≡ spec.maybe_count (option_map (spec.unfolded file) bound.now)) }
{
    match bound {
        Some(e) => count(e),
        None => Ok(0),
    }
}

/// The number behind an expression that has number `k`.
pub(crate) fn behind(k: u32, e: &Expr) -> Result<u32, NoMemory>
    ensures { IfOk result (λ n. (file : File) → n ≡ k + (spec.unfolded file e.now).count) }
{
    plus(k, count(e)?)
}

/// The number behind brackets whose first expression has number `k`.
pub(crate) fn behind_suffix(k: u32, suffix: &Suffix) -> Result<u32, NoMemory>
    ensures { IfOk result (λ n. (file : File) →
        n ≡ k + (spec.unfolded_suffix file suffix.now).count) }
{
    plus(k, count_suffix(suffix)?)
}

/// The number behind a bound that may be missing.
pub(crate) fn behind_bound(k: u32, bound: &Option<Expr>) -> Result<u32, NoMemory>
    ensures { IfOk result (λ n. (file : File) →
        n ≡ k + spec.maybe_count (option_map (spec.unfolded file) bound.now)) }
{
    plus(k, count_bound(bound)?)
}
