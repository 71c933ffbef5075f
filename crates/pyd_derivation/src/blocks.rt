//! What an action of a statement takes from the front piece.
ghost use Rattle.std.specs.Prelude.{◌≡◌, ℕ, ◌+◌, List, [], ◌∷◌, get_or, drop, IfOk};
ghost use Rattle.pyd_derivation.specs.Pieces as spec;
ghost use Rattle.pyd_derivation.specs.Pieces.{part};

use crate::piece::Piece;
use crate::pieces::pop;
use crate::spelling::empty;
use crate::stack::Stack;
use pyd_tree::{Arm, Block, Func, Item, Stmt, What};
use pyd_value::{Boxed, List as Items, NoMemory, Text};
use std::alloc::Global;

/// A statement where there is none.
fn no_stmt(alloc: Global) -> Result<Boxed<Stmt>, NoMemory>
    ensures { IfOk result (λ s. s ≡ spec.no_stmt) }
{
    Boxed::new(
        alloc,
        Stmt {
            line: 0,
            what: What::Pass,
        },
    )
}

/// A suite where there is none.
fn no_suite(alloc: Global) -> Result<Block, NoMemory>
    ensures { IfOk result (λ b. b ≡ spec.block (spec.no_stmt ∷ [])) }
{
    let mut stmts = Items::new(alloc);
    stmts.add(no_stmt(alloc)?.into_inner())?;
    Ok(Block { stmts })
}

pub fn pop_stmt(alloc: Global, pieces: &mut Stack<Piece>) -> Result<Boxed<Stmt>, NoMemory>
    ensures piece { IfOk result (λ s. s ≡ spec.stmt_of (part pieces.old 0)) }
    ensures rest { pieces.new ≡ drop 1 pieces.old }
{
    match pop(pieces) {
        Piece::Stmt(stmt) => Ok(stmt),
        other => {
            drop(other);
            no_stmt(alloc)
        }
    }
}

pub fn pop_stmts(alloc: Global, pieces: &mut Stack<Piece>) -> Stack<Stmt>
    ensures piece { result ≡ spec.stmts_of (part pieces.old 0) }
    ensures rest { pieces.new ≡ drop 1 pieces.old }
{
    match pop(pieces) {
        Piece::Stmts(stmts) => stmts,
        other => {
            drop(other);
            Stack::new(alloc)
        }
    }
}

pub fn pop_suite(alloc: Global, pieces: &mut Stack<Piece>) -> Result<Block, NoMemory>
    ensures piece { IfOk result (λ b. b ≡ spec.suite_of (part pieces.old 0)) }
    ensures rest { pieces.new ≡ drop 1 pieces.old }
{
    match pop(pieces) {
        Piece::Suite(block) => Ok(block),
        other => {
            drop(other);
            no_suite(alloc)
        }
    }
}

/// The suite of `else`, where there is one.
pub fn pop_optional_suite(pieces: &mut Stack<Piece>) -> Option<Block>
    ensures piece { result ≡ spec.optional_suite (part pieces.old 0) }
    ensures rest { pieces.new ≡ drop 1 pieces.old }
{
    match pop(pieces) {
        Piece::Suite(block) => Some(block),
        other => {
            drop(other);
            None
        }
    }
}

pub fn pop_arms(alloc: Global, pieces: &mut Stack<Piece>) -> Stack<Arm>
    ensures piece { result ≡ spec.arms_of (part pieces.old 0) }
    ensures rest { pieces.new ≡ drop 1 pieces.old }
{
    match pop(pieces) {
        Piece::Arms(arms) => arms,
        other => {
            drop(other);
            Stack::new(alloc)
        }
    }
}

pub fn pop_names(alloc: Global, pieces: &mut Stack<Piece>) -> Stack<Text>
    ensures piece { result ≡ spec.names_of (part pieces.old 0) }
    ensures rest { pieces.new ≡ drop 1 pieces.old }
{
    match pop(pieces) {
        Piece::Names(names) => names,
        other => {
            drop(other);
            Stack::new(alloc)
        }
    }
}

pub fn pop_params(alloc: Global, pieces: &mut Stack<Piece>) -> Stack<(u32, Text)>
    ensures piece { result ≡ spec.params_of (part pieces.old 0) }
    ensures rest { pieces.new ≡ drop 1 pieces.old }
{
    match pop(pieces) {
        Piece::Params(params) => params,
        other => {
            drop(other);
            Stack::new(alloc)
        }
    }
}

/// A function where there is none.
fn no_func(alloc: Global) -> Result<Boxed<Func>, NoMemory>
    ensures { IfOk result (λ f. f ≡ spec.no_func) }
{
    let name = empty(alloc)?;
    let body = no_suite(alloc)?;
    Boxed::new(
        alloc,
        Func {
            line: 0,
            name,
            marks: Items::new(alloc),
            params: Items::new(alloc),
            body,
        },
    )
}

/// The decorators of a function, and the function without them.
pub fn pop_def(
    alloc: Global,
    pieces: &mut Stack<Piece>,
) -> Result<(Stack<(u32, Text)>, Boxed<Func>), NoMemory>
    ensures marks { IfOk result (λ d. d.0 ≡ spec.marks_of (part pieces.old 0)) }
    ensures func { IfOk result (λ d. d.1 ≡ spec.func_of (part pieces.old 0)) }
    ensures rest { pieces.new ≡ drop 1 pieces.old }
{
    match pop(pieces) {
        Piece::Def { marks, func } => Ok((marks.into_inner(), func)),
        other => {
            drop(other);
            Ok((Stack::new(alloc), no_func(alloc)?))
        }
    }
}

pub fn pop_item(alloc: Global, pieces: &mut Stack<Piece>) -> Result<Boxed<Item>, NoMemory>
    ensures piece { IfOk result (λ i. i ≡ spec.item_of (part pieces.old 0)) }
    ensures rest { pieces.new ≡ drop 1 pieces.old }
{
    match pop(pieces) {
        Piece::Item(item) => Ok(item),
        other => {
            drop(other);
            let stmt = no_stmt(alloc)?;
            Boxed::new(alloc, Item::Stmt(stmt.into_inner()))
        }
    }
}

pub fn pop_items(alloc: Global, pieces: &mut Stack<Piece>) -> Stack<Item>
    ensures piece { result ≡ spec.items_of (part pieces.old 0) }
    ensures rest { pieces.new ≡ drop 1 pieces.old }
{
    match pop(pieces) {
        Piece::Items(items) => items,
        other => {
            drop(other);
            Stack::new(alloc)
        }
    }
}
