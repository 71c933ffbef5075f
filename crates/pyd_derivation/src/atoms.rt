//! What the productions of atoms make of their parts.
ghost use Rattle.std.specs.Prelude.{◌≡◌, ℕ, ◌+◌, List, [], ◌∷◌, get_or, drop, IfOk};
ghost use Rattle.pyd_derivation.specs.Actions as spec;
ghost use Rattle.pyd_derivation.specs.Pieces.{part};

use crate::piece::Piece;
use crate::pieces::{pop, pop_exprs, pop_token, pop_tuple, skip};
use crate::spelling::{spelling, text_value};
use crate::stack::Stack;
use pyd_lex::{TokenKind, Word};
use pyd_tree::Expr;
use pyd_value::{Boxed, NoMemory, Value};
use std::alloc::Global;

/// A name, or a call.
pub fn name(
    alloc: Global,
    bytes: &[u8],
    pieces: &mut Stack<Piece>,
    line: u32,
) -> Result<Piece, NoMemory>
    ensures made { IfOk result (λ v. v ≡ spec.as_name bytes.now line (part pieces.old 0)
        (part pieces.old 1)
        ) }
    ensures rest { IfOk result (λ _. pieces.new ≡ drop 2 pieces.old) }
{
    let token = pop_token(pieces);
    let name = spelling(alloc, bytes, &token)?;
    match pop(pieces) {
        Piece::Args(args) => Ok(Piece::Expr(Boxed::new(alloc, Expr::Call(name, args))?)),
        other => {
            drop(other);
            Ok(Piece::Expr(Boxed::new(alloc, Expr::Name(name))?))
        }
    }
}

/// Arguments in parentheses.
pub fn arguments(alloc: Global, pieces: &mut Stack<Piece>) -> Result<Piece, NoMemory>
    ensures made { IfOk result (λ v. v ≡ spec.as_arguments (part pieces.old 0) (part pieces.old 1)
        (part pieces.old 2)) }
    ensures rest { IfOk result (λ _. pieces.new ≡ drop 3 pieces.old) }
{
    skip(pieces);
    let exprs = pop_exprs(alloc, pieces)?;
    skip(pieces);
    Ok(Piece::Args(exprs.into_list(alloc)?))
}

/// Parentheses.
pub fn group(alloc: Global, pieces: &mut Stack<Piece>) -> Result<Piece, NoMemory>
    ensures made { IfOk result (λ v. v ≡ spec.as_group (part pieces.old 0) (part pieces.old 1)
        (part pieces.old 2)) }
    ensures rest { IfOk result (λ _. pieces.new ≡ drop 3 pieces.old) }
{
    skip(pieces);
    let expr = pop_tuple(alloc, pieces)?;
    skip(pieces);
    Ok(Piece::Expr(expr))
}

/// The value of an integer literal.
fn number(kind: TokenKind) -> Value
    ensures { result ≡ spec.number kind }
{
    match kind {
        TokenKind::Int(n) => Value::Int(n),
        _ => Value::None,
    }
}

/// An integer.
pub fn int(alloc: Global, pieces: &mut Stack<Piece>) -> Result<Piece, NoMemory>
    ensures made { IfOk result (λ v. v ≡ spec.as_int (part pieces.old 0)) }
    ensures rest { IfOk result (λ _. pieces.new ≡ drop 1 pieces.old) }
{
    let value = number(pop_token(pieces).kind);
    Ok(Piece::Expr(Boxed::new(alloc, Expr::Lit(value))?))
}

/// A text.
pub fn text(
    alloc: Global,
    bytes: &[u8],
    pieces: &mut Stack<Piece>,
    line: u32,
) -> Result<Piece, NoMemory>
    ensures made { IfOk result (λ v. v ≡ spec.as_text bytes.now line (part pieces.old 0)) }
    ensures rest { IfOk result (λ _. pieces.new ≡ drop 1 pieces.old) }
{
    let token = pop_token(pieces);
    let text = text_value(alloc, bytes, &token)?;
    Ok(Piece::Expr(Boxed::new(alloc, Expr::Lit(Value::Text(text)))?))
}

/// The value of a keyword.
fn keyword_value(kind: TokenKind) -> Value
    ensures { result ≡ spec.constant kind }
{
    match kind {
        TokenKind::Word(Word::True) => Value::Bool(true),
        TokenKind::Word(Word::False) => Value::Bool(false),
        _ => Value::None,
    }
}

/// `True`, `False` or `None`.
pub fn constant(alloc: Global, pieces: &mut Stack<Piece>) -> Result<Piece, NoMemory>
    ensures made { IfOk result (λ v. v ≡ spec.as_constant (part pieces.old 0)) }
    ensures rest { IfOk result (λ _. pieces.new ≡ drop 1 pieces.old) }
{
    let value = keyword_value(pop_token(pieces).kind);
    Ok(Piece::Expr(Boxed::new(alloc, Expr::Lit(value))?))
}
