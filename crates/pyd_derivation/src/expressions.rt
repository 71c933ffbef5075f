//! What the productions of expressions make of their parts.
ghost use Rattle.std.specs.Prelude.{◌≡◌, ℕ, ◌+◌, List, [], ◌∷◌, get_or, drop, IfOk};
ghost use Rattle.pyd_derivation.specs.Actions as spec;
ghost use Rattle.pyd_derivation.specs.Pieces.{part};

use crate::piece::Piece;
use crate::pieces::{pop, pop_expr, pop_exprs, skip};
use crate::stack::Stack;
use pyd_tree::{Expr, UnOp};
use pyd_value::{Boxed, NoMemory};
use std::alloc::Global;

/// A test, and those behind its comma.
pub fn tests(alloc: Global, pieces: &mut Stack<Piece>) -> Result<Piece, NoMemory>
    ensures made { IfOk result (λ v. v ≡ spec.as_tests (part pieces.old 0) (part pieces.old 1)) }
    ensures rest { IfOk result (λ _. pieces.new ≡ drop 2 pieces.old) }
{
    let first = pop_expr(alloc, pieces)?;
    match pop(pieces) {
        Piece::Many(mut many) => {
            many.push(first.into_inner())?;
            Ok(Piece::Many(many))
        }
        other => {
            drop(other);
            Ok(Piece::Expr(first))
        }
    }
}

/// A comma, and the tests behind it.
pub fn comma(alloc: Global, pieces: &mut Stack<Piece>) -> Result<Piece, NoMemory>
    ensures made { IfOk result (λ v. v ≡ spec.as_comma (part pieces.old 0) (part pieces.old 1)) }
    ensures rest { IfOk result (λ _. pieces.new ≡ drop 2 pieces.old) }
{
    skip(pieces);
    Ok(Piece::Many(pop_exprs(alloc, pieces)?))
}

/// A test, or a conditional expression.
pub fn test(alloc: Global, pieces: &mut Stack<Piece>) -> Result<Piece, NoMemory>
    ensures made { IfOk result (λ v. v ≡ spec.as_test (part pieces.old 0) (part pieces.old 1)) }
    ensures rest { IfOk result (λ _. pieces.new ≡ drop 2 pieces.old) }
{
    let yes = pop_expr(alloc, pieces)?;
    match pop(pieces) {
        Piece::Condition { test, no } => {
            let choice = Expr::If(test, yes, no);
            Ok(Piece::Expr(Boxed::new(alloc, choice)?))
        }
        other => {
            drop(other);
            Ok(Piece::Expr(yes))
        }
    }
}

/// The test and the other value of a conditional expression.
pub fn condition(alloc: Global, pieces: &mut Stack<Piece>) -> Result<Piece, NoMemory>
    ensures made { IfOk result (λ v. v ≡ spec.as_condition (part pieces.old 0) (part pieces.old 1)
        (part pieces.old 2) (part pieces.old 3)) }
    ensures rest { IfOk result (λ _. pieces.new ≡ drop 4 pieces.old) }
{
    skip(pieces);
    let test = pop_expr(alloc, pieces)?;
    skip(pieces);
    let no = pop_expr(alloc, pieces)?;
    Ok(Piece::Condition { test, no })
}

/// An operand, and those behind each `or`.
pub fn or_test(alloc: Global, pieces: &mut Stack<Piece>) -> Result<Piece, NoMemory>
    ensures made { IfOk result (λ v. v ≡ spec.as_or (part pieces.old 0) (part pieces.old 1)) }
    ensures rest { IfOk result (λ _. pieces.new ≡ drop 2 pieces.old) }
{
    let first = pop_expr(alloc, pieces)?;
    match pop(pieces) {
        Piece::Many(mut many) => {
            many.push(first.into_inner())?;
            let members = many.into_list(alloc)?;
            Ok(Piece::Expr(Boxed::new(alloc, Expr::Or(members))?))
        }
        other => {
            drop(other);
            Ok(Piece::Expr(first))
        }
    }
}

/// An operand, and those behind each `and`.
pub fn and_test(alloc: Global, pieces: &mut Stack<Piece>) -> Result<Piece, NoMemory>
    ensures made { IfOk result (λ v. v ≡ spec.as_and (part pieces.old 0) (part pieces.old 1)) }
    ensures rest { IfOk result (λ _. pieces.new ≡ drop 2 pieces.old) }
{
    let first = pop_expr(alloc, pieces)?;
    match pop(pieces) {
        Piece::Many(mut many) => {
            many.push(first.into_inner())?;
            let members = many.into_list(alloc)?;
            Ok(Piece::Expr(Boxed::new(alloc, Expr::And(members))?))
        }
        other => {
            drop(other);
            Ok(Piece::Expr(first))
        }
    }
}

/// An operand behind its word, and those behind it.
pub fn member(alloc: Global, pieces: &mut Stack<Piece>) -> Result<Piece, NoMemory>
    ensures made { IfOk result (λ v. v ≡ spec.as_member (part pieces.old 0) (part pieces.old 1)
        (part pieces.old 2)) }
    ensures rest { IfOk result (λ _. pieces.new ≡ drop 3 pieces.old) }
{
    skip(pieces);
    let operand = pop_expr(alloc, pieces)?;
    let mut exprs = pop_exprs(alloc, pieces)?;
    exprs.push(operand.into_inner())?;
    Ok(Piece::Many(exprs))
}

/// `not` and its operand.
pub fn not_test(alloc: Global, pieces: &mut Stack<Piece>) -> Result<Piece, NoMemory>
    ensures made { IfOk result (λ v. v ≡ spec.as_not (part pieces.old 0) (part pieces.old 1)) }
    ensures rest { IfOk result (λ _. pieces.new ≡ drop 2 pieces.old) }
{
    skip(pieces);
    let operand = pop_expr(alloc, pieces)?;
    Ok(Piece::Expr(Boxed::new(alloc, Expr::Unary(UnOp::Not, operand))?))
}
