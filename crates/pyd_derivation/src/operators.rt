//! What the productions of operators, comparisons and suffixes make of their parts.
ghost use Rattle.std.specs.Prelude.{◌≡◌, ℕ, ◌+◌, List, [], ◌∷◌, get_or, drop, IfOk};
ghost use Rattle.pyd_derivation.specs.Actions as spec;
ghost use Rattle.pyd_derivation.specs.Pieces.{part};

use crate::marks::{comparison, operator, sign};
use crate::piece::Piece;
use crate::pieces::{
    pop, pop_compares, pop_expr, pop_links, pop_optional_expr, pop_suffix, pop_suffixes, pop_token,
    skip,
};
use crate::stack::Stack;
use pyd_tree::{CmpOp, Expr, Suffix};
use pyd_value::{Boxed, NoMemory};
use std::alloc::Global;

/// An operand, and the comparisons behind it.
pub fn compare(alloc: Global, pieces: &mut Stack<Piece>) -> Result<Piece, NoMemory>
    ensures made { IfOk result (λ v. v ≡ spec.as_compare (part pieces.old 0) (part pieces.old 1)
        ) }
    ensures rest { IfOk result (λ _. pieces.new ≡ drop 2 pieces.old) }
{
    let first = pop_expr(alloc, pieces)?;
    match pop(pieces) {
        Piece::Compares(links) => {
            let links = links.into_list(alloc)?;
            Ok(Piece::Expr(Boxed::new(alloc, Expr::Compare(first, links))?))
        }
        other => {
            drop(other);
            Ok(Piece::Expr(first))
        }
    }
}

/// A comparison, its operand, and those behind it.
pub fn compared(alloc: Global, pieces: &mut Stack<Piece>) -> Result<Piece, NoMemory>
    ensures made { IfOk result (λ v. v ≡ spec.as_compared (part pieces.old 0) (part pieces.old 1)
        (part pieces.old 2)) }
    ensures rest { IfOk result (λ _. pieces.new ≡ drop 3 pieces.old) }
{
    let op = comparison(pop_token(pieces).kind);
    let operand = pop_expr(alloc, pieces)?;
    let mut links = pop_compares(alloc, pieces);
    links.push((op, operand.into_inner()))?;
    Ok(Piece::Compares(links))
}

/// `not in`, its operand, and the comparisons behind it.
pub fn not_in(alloc: Global, pieces: &mut Stack<Piece>) -> Result<Piece, NoMemory>
    ensures made { IfOk result (λ v. v ≡ spec.as_not_in (part pieces.old 0) (part pieces.old 1)
        (part pieces.old 2) (part pieces.old 3)) }
    ensures rest { IfOk result (λ _. pieces.new ≡ drop 4 pieces.old) }
{
    skip(pieces);
    skip(pieces);
    let operand = pop_expr(alloc, pieces)?;
    let mut links = pop_compares(alloc, pieces);
    links.push((CmpOp::NotIn, operand.into_inner()))?;
    Ok(Piece::Compares(links))
}

/// An operand, and the operators of one level behind it.
pub fn chain(alloc: Global, pieces: &mut Stack<Piece>) -> Result<Piece, NoMemory>
    ensures made { IfOk result (λ v. v ≡ spec.as_chain (part pieces.old 0) (part pieces.old 1)) }
    ensures rest { IfOk result (λ _. pieces.new ≡ drop 2 pieces.old) }
{
    let first = pop_expr(alloc, pieces)?;
    match pop(pieces) {
        Piece::Links(links) => {
            let links = links.into_list(alloc)?;
            Ok(Piece::Expr(Boxed::new(alloc, Expr::Chain(first, links))?))
        }
        other => {
            drop(other);
            Ok(Piece::Expr(first))
        }
    }
}

/// An operator, its operand, and those behind it.
pub fn link(alloc: Global, pieces: &mut Stack<Piece>) -> Result<Piece, NoMemory>
    ensures made { IfOk result (λ v. v ≡ spec.as_link (part pieces.old 0) (part pieces.old 1)
        (part pieces.old 2)) }
    ensures rest { IfOk result (λ _. pieces.new ≡ drop 3 pieces.old) }
{
    let op = operator(pop_token(pieces).kind);
    let operand = pop_expr(alloc, pieces)?;
    let mut links = pop_links(alloc, pieces);
    links.push((op, operand.into_inner()))?;
    Ok(Piece::Links(links))
}

/// A sign and its operand.
pub fn unary(alloc: Global, pieces: &mut Stack<Piece>) -> Result<Piece, NoMemory>
    ensures made { IfOk result (λ v. v ≡ spec.as_unary (part pieces.old 0) (part pieces.old 1)) }
    ensures rest { IfOk result (λ _. pieces.new ≡ drop 2 pieces.old) }
{
    let op = sign(pop_token(pieces).kind);
    let operand = pop_expr(alloc, pieces)?;
    Ok(Piece::Expr(Boxed::new(alloc, Expr::Unary(op, operand))?))
}

/// A base, and its exponent where it has one.
pub fn power(alloc: Global, pieces: &mut Stack<Piece>) -> Result<Piece, NoMemory>
    ensures made { IfOk result (λ v. v ≡ spec.as_power (part pieces.old 0) (part pieces.old 1)) }
    ensures rest { IfOk result (λ _. pieces.new ≡ drop 2 pieces.old) }
{
    let base = pop_expr(alloc, pieces)?;
    match pop(pieces) {
        Piece::Expr(exponent) => {
            let power = Expr::Power(base, exponent);
            Ok(Piece::Expr(Boxed::new(alloc, power)?))
        }
        other => {
            drop(other);
            Ok(Piece::Expr(base))
        }
    }
}

/// A base, and the suffixes behind it.
pub fn suffixed(alloc: Global, pieces: &mut Stack<Piece>) -> Result<Piece, NoMemory>
    ensures made { IfOk result (λ v. v ≡ spec.as_suffixed (part pieces.old 0) (part pieces.old 1)
        ) }
    ensures rest { IfOk result (λ _. pieces.new ≡ drop 2 pieces.old) }
{
    let base = pop_expr(alloc, pieces)?;
    match pop(pieces) {
        Piece::Suffixes(suffixes) => {
            let suffixes = suffixes.into_list(alloc)?;
            Ok(Piece::Expr(Boxed::new(alloc, Expr::Suffixed(base, suffixes))?))
        }
        other => {
            drop(other);
            Ok(Piece::Expr(base))
        }
    }
}

/// A suffix in brackets, and those behind it.
pub fn suffix(alloc: Global, pieces: &mut Stack<Piece>) -> Result<Piece, NoMemory>
    ensures made { IfOk result (λ v. v ≡ spec.as_suffix (part pieces.old 0) (part pieces.old 1)
        (part pieces.old 2) (part pieces.old 3)) }
    ensures rest { IfOk result (λ _. pieces.new ≡ drop 4 pieces.old) }
{
    skip(pieces);
    let suffix = pop_suffix(alloc, pieces)?;
    skip(pieces);
    let mut suffixes = pop_suffixes(alloc, pieces);
    suffixes.push(suffix.into_inner())?;
    Ok(Piece::Suffixes(suffixes))
}

/// An expression out of its box.
pub fn unboxed(expr: Option<Boxed<Expr>>) -> Option<Expr>
    ensures { result ≡ expr }
{
    match expr {
        Some(expr) => Some(expr.into_inner()),
        None => None,
    }
}

/// An index, or a slice with a lower bound.
pub fn sub(alloc: Global, pieces: &mut Stack<Piece>) -> Result<Piece, NoMemory>
    ensures made { IfOk result (λ v. v ≡ spec.as_sub (part pieces.old 0) (part pieces.old 1)) }
    ensures rest { IfOk result (λ _. pieces.new ≡ drop 2 pieces.old) }
{
    let first = pop_expr(alloc, pieces)?;
    match pop(pieces) {
        Piece::Bound(upper) => {
            let slice = Suffix::Slice(Some(first.into_inner()), unboxed(upper));
            Ok(Piece::Suffix(Boxed::new(alloc, slice)?))
        }
        other => {
            drop(other);
            let index = Suffix::Index(first.into_inner());
            Ok(Piece::Suffix(Boxed::new(alloc, index)?))
        }
    }
}

/// A slice without a lower bound.
pub fn upper(alloc: Global, pieces: &mut Stack<Piece>) -> Result<Piece, NoMemory>
    ensures made { IfOk result (λ v. v ≡ spec.as_upper (part pieces.old 0) (part pieces.old 1)) }
    ensures rest { IfOk result (λ _. pieces.new ≡ drop 2 pieces.old) }
{
    skip(pieces);
    let slice = Suffix::Slice(None, unboxed(pop_optional_expr(pieces)));
    Ok(Piece::Suffix(Boxed::new(alloc, slice)?))
}

/// A colon, and the upper bound behind it.
pub fn bound(pieces: &mut Stack<Piece>) -> Piece
    ensures made { result ≡ spec.as_bound (part pieces.old 0) (part pieces.old 1) }
    ensures rest { pieces.new ≡ drop 2 pieces.old }
{
    skip(pieces);
    Piece::Bound(pop_optional_expr(pieces))
}
