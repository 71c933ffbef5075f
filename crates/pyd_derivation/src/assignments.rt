//! What the productions of assignments and of a `for` make of their parts.
ghost use Rattle.std.specs.Prelude.{◌≡◌, ℕ, ◌+◌, List, [], ◌∷◌, get_or, drop, IfOk, unwrap_or};
ghost use Rattle.pyd_derivation.specs.Actions as spec;
ghost use Rattle.pyd_derivation.specs.Pieces.{part, name_in};

use crate::blocks::{pop_names, pop_suite};
use crate::marks::operator;
use crate::piece::Piece;
use crate::pieces::{pop, pop_token, pop_tuple, skip};
use crate::spelling::{empty, spelling};
use crate::stack::Stack;
use crate::statements::statement;
use crate::targets::{name_of, targets_of};
use pyd_tree::{Expr, Targets, What};
use pyd_value::{Boxed, List as Items, NoMemory, Text};
use std::alloc::Global;

/// `=` and the right side.
pub fn assign(alloc: Global, pieces: &mut Stack<Piece>) -> Result<Piece, NoMemory>
    ensures made { IfOk result (λ v. v ≡ spec.as_assign (part pieces.old 0) (part pieces.old 1)) }
    ensures rest { IfOk result (λ _. pieces.new ≡ drop 2 pieces.old) }
{
    skip(pieces);
    Ok(Piece::Assign(pop_tuple(alloc, pieces)?))
}

/// The operator of an augmented assignment, and the right side.
pub fn augment(alloc: Global, pieces: &mut Stack<Piece>) -> Result<Piece, NoMemory>
    ensures made { IfOk result (λ v. v ≡ spec.as_augment (part pieces.old 0) (part pieces.old 1)
        ) }
    ensures rest { IfOk result (λ _. pieces.new ≡ drop 2 pieces.old) }
{
    let op = operator(pop_token(pieces).kind);
    let right = pop_tuple(alloc, pieces)?;
    Ok(Piece::Augment { op, right })
}

/// Targets where there are none.
fn no_targets(alloc: Global) -> Result<Targets, NoMemory>
    ensures { IfOk result (λ targets. targets ≡ spec.no_targets) }
{
    let mut names = Items::new(alloc);
    names.add(empty(alloc)?)?;
    Ok(Targets {
        names,
        tuple: false,
    })
}

/// The targets that the left side of an assignment is.
fn targets(alloc: Global, left: &Expr) -> Result<Targets, NoMemory>
    ensures { IfOk result (λ targets. targets ≡ unwrap_or (spec.targets_of left.now)
        spec.no_targets) }
{
    match targets_of(alloc, left)? {
        Some(targets) => Ok(targets),
        None => no_targets(alloc),
    }
}

/// The name that the left side of an augmented assignment is.
fn target_name(alloc: Global, left: &Expr) -> Result<Text, NoMemory>
    ensures { IfOk result (λ name. name ≡ unwrap_or (spec.name_of left.now) []) }
{
    match name_of(alloc, left)? {
        Some(name) => Ok(name),
        None => empty(alloc),
    }
}

/// What an expression alone, an assignment or an augmented one does.
fn assigned(alloc: Global, left: Boxed<Expr>, rest: Piece) -> Result<Boxed<What>, NoMemory>
    ensures { IfOk result (λ what. what ≡ spec.assigned left rest) }
{
    match rest {
        Piece::Assign(right) => {
            let targets = targets(alloc, left.get())?;
            Boxed::new(alloc, What::Assign(targets, right.into_inner()))
        }
        Piece::Augment { op, right } => {
            let name = target_name(alloc, left.get())?;
            Boxed::new(alloc, What::Aug(name, op, right.into_inner()))
        }
        other => {
            drop(other);
            Boxed::new(alloc, What::Expr(left.into_inner()))
        }
    }
}

/// An expression, an assignment or an augmented one.
pub fn simple(alloc: Global, pieces: &mut Stack<Piece>, line: u32) -> Result<Piece, NoMemory>
    ensures made { IfOk result (λ v. v ≡ spec.as_simple [] line (part pieces.old 0)
        (part pieces.old 1)
        (part pieces.old 2)) }
    ensures rest { IfOk result (λ _. pieces.new ≡ drop 3 pieces.old) }
{
    let left = pop_tuple(alloc, pieces)?;
    let rest = pop(pieces);
    let what = assigned(alloc, left, rest)?;
    skip(pieces);
    statement(alloc, line, what.into_inner())
}

/// The targets of a `for`: behind a comma they are a tuple.
fn loop_targets(alloc: Global, name: Text, rest: Piece) -> Result<Targets, NoMemory>
    ensures { IfOk result (λ targets. targets ≡ spec.loop_targets name rest) }
{
    match rest {
        Piece::Names(mut names) => {
            names.push(name)?;
            let names = names.into_list(alloc)?;
            Ok(Targets { names, tuple: true })
        }
        other => {
            drop(other);
            let mut names = Items::new(alloc);
            names.add(name)?;
            Ok(Targets {
                names,
                tuple: false,
            })
        }
    }
}

/// `for`, its targets and `in`.
fn pop_targets(alloc: Global, bytes: &[u8], pieces: &mut Stack<Piece>) -> Result<Targets, NoMemory>
    ensures made { IfOk result (λ targets. targets
        ≡ spec.loop_targets (name_in bytes.now (part pieces.old 1)) (part pieces.old 2)) }
    ensures rest { IfOk result (λ _. pieces.new ≡ drop 4 pieces.old) }
{
    skip(pieces);
    let token = pop_token(pieces);
    let name = spelling(alloc, bytes, &token)?;
    let rest = pop(pieces);
    let targets = loop_targets(alloc, name, rest)?;
    skip(pieces);
    Ok(targets)
}

/// A `for`.
pub fn for_loop(
    alloc: Global,
    bytes: &[u8],
    pieces: &mut Stack<Piece>,
    line: u32,
) -> Result<Piece, NoMemory>
    ensures made { IfOk result (λ v. v ≡ spec.as_for bytes.now line (part pieces.old 0)
        (part pieces.old 1)
        (part pieces.old 2) (part pieces.old 3) (part pieces.old 4) (part pieces.old 5)) }
    ensures rest { IfOk result (λ _. pieces.new ≡ drop 6 pieces.old) }
{
    let targets = pop_targets(alloc, bytes, pieces)?;
    let over = pop_tuple(alloc, pieces)?;
    let body = pop_suite(alloc, pieces)?;
    let what = What::For(targets, over.into_inner(), body);
    statement(alloc, line, what)
}

/// A target, and those behind its comma.
pub fn more_targets(
    alloc: Global,
    bytes: &[u8],
    pieces: &mut Stack<Piece>,
    line: u32,
) -> Result<Piece, NoMemory>
    ensures made { IfOk result (λ v. v ≡ spec.as_targets bytes.now line (part pieces.old 0)
        (part pieces.old 1)
        ) }
    ensures rest { IfOk result (λ _. pieces.new ≡ drop 2 pieces.old) }
{
    let token = pop_token(pieces);
    let name = spelling(alloc, bytes, &token)?;
    let mut names = pop_names(alloc, pieces);
    names.push(name)?;
    Ok(Piece::Names(names))
}

/// A comma, and the targets behind it.
pub fn target_comma(alloc: Global, pieces: &mut Stack<Piece>) -> Piece
    ensures made { result ≡ spec.as_more_targets (part pieces.old 0) (part pieces.old 1) }
    ensures rest { pieces.new ≡ drop 2 pieces.old }
{
    skip(pieces);
    Piece::Names(pop_names(alloc, pieces))
}
