//! What the productions of statements make of their parts.
ghost use Rattle.std.specs.Prelude.{◌≡◌, ℕ, ◌+◌, List, [], ◌∷◌, get_or, drop, IfOk};
ghost use Rattle.pyd_derivation.specs.Actions as spec;
ghost use Rattle.pyd_derivation.specs.Pieces.{part, arms_of};

use crate::blocks::{pop_arms, pop_optional_suite, pop_suite};
use crate::operators::unboxed;
use crate::piece::Piece;
use crate::pieces::{pop_expr, pop_optional_expr, pop_optional_tuple, skip};
use crate::stack::Stack;
use pyd_tree::{Arm, Stmt, What};
use pyd_value::{Boxed, NoMemory};
use std::alloc::Global;

/// A statement in its line.
pub fn statement(alloc: Global, line: u32, what: What) -> Result<Piece, NoMemory>
    ensures { IfOk result (λ v. v ≡ spec.statement line what) }
{
    Ok(Piece::Stmt(Boxed::new(alloc, Stmt { line, what })?))
}

/// A test with its suite, and those behind it.
fn arms(alloc: Global, pieces: &mut Stack<Piece>, line: u32) -> Result<Stack<Arm>, NoMemory>
    ensures made { IfOk result (λ arms. arms
        ≡ spec.arm line (part pieces.old 1) (part pieces.old 2) ∷ arms_of (part pieces.old 3)) }
    ensures rest { IfOk result (λ _. pieces.new ≡ drop 4 pieces.old) }
{
    skip(pieces);
    let test = pop_expr(alloc, pieces)?;
    let body = pop_suite(alloc, pieces)?;
    let mut arms = pop_arms(alloc, pieces);
    let test = test.into_inner();
    arms.push(Arm { line, test, body })?;
    Ok(arms)
}

/// An `if` with all its arms.
pub fn conditional(alloc: Global, pieces: &mut Stack<Piece>, line: u32) -> Result<Piece, NoMemory>
    ensures made { IfOk result (λ v. v ≡ spec.as_if [] line (part pieces.old 0) (part pieces.old 1)
        (part pieces.old 2) (part pieces.old 3) (part pieces.old 4)) }
    ensures rest { IfOk result (λ _. pieces.new ≡ drop 5 pieces.old) }
{
    let arms = arms(alloc, pieces, line)?;
    let arms = arms.into_list(alloc)?;
    let other = pop_optional_suite(pieces);
    statement(alloc, line, What::If(arms, other))
}

/// An `elif`, and those behind it.
pub fn elifs(alloc: Global, pieces: &mut Stack<Piece>, line: u32) -> Result<Piece, NoMemory>
    ensures made { IfOk result (λ v. v ≡ spec.as_elifs [] line (part pieces.old 0)
        (part pieces.old 1)
        (part pieces.old 2) (part pieces.old 3)) }
    ensures rest { IfOk result (λ _. pieces.new ≡ drop 4 pieces.old) }
{
    Ok(Piece::Arms(arms(alloc, pieces, line)?))
}

/// A `while`.
pub fn while_loop(alloc: Global, pieces: &mut Stack<Piece>, line: u32) -> Result<Piece, NoMemory>
    ensures made { IfOk result (λ v. v ≡ spec.as_while [] line (part pieces.old 0)
        (part pieces.old 1)
        (part pieces.old 2)) }
    ensures rest { IfOk result (λ _. pieces.new ≡ drop 3 pieces.old) }
{
    skip(pieces);
    let test = pop_expr(alloc, pieces)?;
    let body = pop_suite(alloc, pieces)?;
    statement(alloc, line, What::While(test.into_inner(), body))
}

/// `pass`.
pub fn pass_line(alloc: Global, pieces: &mut Stack<Piece>, line: u32) -> Result<Piece, NoMemory>
    ensures made { IfOk result (λ v. v ≡ spec.as_pass [] line (part pieces.old 0)
        (part pieces.old 1)
        ) }
    ensures rest { IfOk result (λ _. pieces.new ≡ drop 2 pieces.old) }
{
    skip(pieces);
    skip(pieces);
    statement(alloc, line, What::Pass)
}

/// `break`.
pub fn break_line(alloc: Global, pieces: &mut Stack<Piece>, line: u32) -> Result<Piece, NoMemory>
    ensures made { IfOk result (λ v. v ≡ spec.as_break [] line (part pieces.old 0)
        (part pieces.old 1)
        ) }
    ensures rest { IfOk result (λ _. pieces.new ≡ drop 2 pieces.old) }
{
    skip(pieces);
    skip(pieces);
    statement(alloc, line, What::Break)
}

/// `continue`.
pub fn continue_line(alloc: Global, pieces: &mut Stack<Piece>, line: u32) -> Result<Piece, NoMemory>
    ensures made { IfOk result (λ v. v ≡ spec.as_continue [] line (part pieces.old 0)
        (part pieces.old 1)
        ) }
    ensures rest { IfOk result (λ _. pieces.new ≡ drop 2 pieces.old) }
{
    skip(pieces);
    skip(pieces);
    statement(alloc, line, What::Continue)
}

/// A `return`.
pub fn return_line(alloc: Global, pieces: &mut Stack<Piece>, line: u32) -> Result<Piece, NoMemory>
    ensures made { IfOk result (λ v. v ≡ spec.as_return [] line (part pieces.old 0)
        (part pieces.old 1)
        (part pieces.old 2)) }
    ensures rest { IfOk result (λ _. pieces.new ≡ drop 3 pieces.old) }
{
    skip(pieces);
    let value = pop_optional_tuple(alloc, pieces)?;
    skip(pieces);
    statement(alloc, line, What::Return(unboxed(value)))
}

/// An `assert`.
pub fn assert_line(alloc: Global, pieces: &mut Stack<Piece>, line: u32) -> Result<Piece, NoMemory>
    ensures made { IfOk result (λ v. v ≡ spec.as_assert [] line (part pieces.old 0)
        (part pieces.old 1)
        (part pieces.old 2) (part pieces.old 3)) }
    ensures rest { IfOk result (λ _. pieces.new ≡ drop 4 pieces.old) }
{
    skip(pieces);
    let test = pop_expr(alloc, pieces)?;
    let message = pop_optional_expr(pieces);
    skip(pieces);
    let what = What::Assert(test.into_inner(), unboxed(message));
    statement(alloc, line, what)
}
