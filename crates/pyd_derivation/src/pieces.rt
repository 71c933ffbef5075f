//! The pieces that have been read, the first in the text at the front, and what an action takes from the front one.
ghost use Rattle.std.specs.Prelude.{◌≡◌, ℕ, ◌+◌, List, [], ◌∷◌, get_or, drop, IfOk};
ghost use Rattle.pyd_derivation.specs.Pieces as spec;
ghost use Rattle.pyd_derivation.specs.Pieces.{part};

use crate::piece::Piece;
use crate::stack::Stack;
use pyd_lex::{Token, TokenKind};
use pyd_tree::{BinOp, CmpOp, Expr, Suffix};
use pyd_value::{Boxed, List as Items, NoMemory, Value};
use std::alloc::Global;

/// Takes the front piece off.
pub fn pop(pieces: &mut Stack<Piece>) -> Piece
    ensures piece { result ≡ part pieces.old 0 }
    ensures rest { pieces.new ≡ drop 1 pieces.old }
{
    match pieces.pop() {
        Some(piece) => piece,
        None => Piece::Nothing,
    }
}

/// Drops the front piece.
pub fn skip(pieces: &mut Stack<Piece>)
    ensures { pieces.new ≡ drop 1 pieces.old }
{
    drop(pop(pieces));
}

pub fn pop_token(pieces: &mut Stack<Piece>) -> Token
    ensures piece { result ≡ spec.token_of (part pieces.old 0) }
    ensures rest { pieces.new ≡ drop 1 pieces.old }
{
    match pop(pieces) {
        Piece::Leaf(token) => token.into_inner(),
        other => {
            drop(other);
            Token {
                kind: TokenKind::End,
                from: 0,
                to: 0,
                line: 0,
            }
        }
    }
}

/// An expression where there is none.
fn no_expr(alloc: Global) -> Result<Boxed<Expr>, NoMemory>
    ensures { IfOk result (λ e. e ≡ spec.no_expr) }
{
    Boxed::new(alloc, Expr::Lit(Value::None))
}

pub fn pop_expr(alloc: Global, pieces: &mut Stack<Piece>) -> Result<Boxed<Expr>, NoMemory>
    ensures piece { IfOk result (λ e. e ≡ spec.expr_of (part pieces.old 0)) }
    ensures rest { pieces.new ≡ drop 1 pieces.old }
{
    match pop(pieces) {
        Piece::Expr(expr) => Ok(expr),
        other => {
            drop(other);
            no_expr(alloc)
        }
    }
}

/// The expressions that commas or one operator divide.
pub fn pop_exprs(alloc: Global, pieces: &mut Stack<Piece>) -> Result<Stack<Expr>, NoMemory>
    ensures piece { IfOk result (λ es. es ≡ spec.exprs_of (part pieces.old 0)) }
    ensures rest { pieces.new ≡ drop 1 pieces.old }
{
    let mut exprs = Stack::new(alloc);
    match pop(pieces) {
        Piece::Expr(expr) => {
            exprs.push(expr.into_inner())?;
            Ok(exprs)
        }
        Piece::Many(many) => Ok(many),
        other => {
            drop(other);
            Ok(exprs)
        }
    }
}

/// One expression without a comma, else a tuple.
pub fn pop_tuple(alloc: Global, pieces: &mut Stack<Piece>) -> Result<Boxed<Expr>, NoMemory>
    ensures piece { IfOk result (λ e. e ≡ spec.tuple_of (part pieces.old 0)) }
    ensures rest { pieces.new ≡ drop 1 pieces.old }
{
    match pop(pieces) {
        Piece::Expr(only) => Ok(only),
        Piece::Many(many) => Boxed::new(alloc, Expr::Tuple(many.into_list(alloc)?)),
        Piece::Nothing => Boxed::new(alloc, Expr::Tuple(Items::new(alloc))),
        other => {
            drop(other);
            no_expr(alloc)
        }
    }
}

/// The same, where there is something.
pub fn pop_optional_tuple(
    alloc: Global,
    pieces: &mut Stack<Piece>,
) -> Result<Option<Boxed<Expr>>, NoMemory>
    ensures piece { IfOk result (λ e. e ≡ spec.optional_tuple (part pieces.old 0)) }
    ensures rest { pieces.new ≡ drop 1 pieces.old }
{
    match pop(pieces) {
        Piece::Expr(expr) => Ok(Some(expr)),
        Piece::Many(many) => Ok(Some(Boxed::new(alloc, Expr::Tuple(many.into_list(alloc)?))?)),
        other => {
            drop(other);
            Ok(None)
        }
    }
}

pub fn pop_optional_expr(pieces: &mut Stack<Piece>) -> Option<Boxed<Expr>>
    ensures piece { result ≡ spec.optional_expr (part pieces.old 0) }
    ensures rest { pieces.new ≡ drop 1 pieces.old }
{
    match pop(pieces) {
        Piece::Expr(expr) => Some(expr),
        other => {
            drop(other);
            None
        }
    }
}

pub fn pop_links(alloc: Global, pieces: &mut Stack<Piece>) -> Stack<(BinOp, Expr)>
    ensures piece { result ≡ spec.links_of (part pieces.old 0) }
    ensures rest { pieces.new ≡ drop 1 pieces.old }
{
    match pop(pieces) {
        Piece::Links(links) => links,
        other => {
            drop(other);
            Stack::new(alloc)
        }
    }
}

pub fn pop_compares(alloc: Global, pieces: &mut Stack<Piece>) -> Stack<(CmpOp, Expr)>
    ensures piece { result ≡ spec.compares_of (part pieces.old 0) }
    ensures rest { pieces.new ≡ drop 1 pieces.old }
{
    match pop(pieces) {
        Piece::Compares(links) => links,
        other => {
            drop(other);
            Stack::new(alloc)
        }
    }
}

pub fn pop_suffix(alloc: Global, pieces: &mut Stack<Piece>) -> Result<Boxed<Suffix>, NoMemory>
    ensures piece { IfOk result (λ s. s ≡ spec.suffix_of (part pieces.old 0)) }
    ensures rest { pieces.new ≡ drop 1 pieces.old }
{
    match pop(pieces) {
        Piece::Suffix(suffix) => Ok(suffix),
        other => {
            drop(other);
            Boxed::new(alloc, Suffix::Index(Expr::Lit(Value::None)))
        }
    }
}

pub fn pop_suffixes(alloc: Global, pieces: &mut Stack<Piece>) -> Stack<Suffix>
    ensures piece { result ≡ spec.suffixes_of (part pieces.old 0) }
    ensures rest { pieces.new ≡ drop 1 pieces.old }
{
    match pop(pieces) {
        Piece::Suffixes(suffixes) => suffixes,
        other => {
            drop(other);
            Stack::new(alloc)
        }
    }
}
