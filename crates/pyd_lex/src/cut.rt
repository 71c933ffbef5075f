//! The piece at the front of a text.

ghost use Rattle.std.specs.Prelude.{◌≡◌, ◌<◌, length, slice_index, IfOk, IfErr};
ghost use Rattle.pyd_lex.specs.Spelling.{Extends, HasClass};
ghost use Rattle.pyd_lex.specs.Meaning.{spacing};
ghost use Rattle.pyd_lex.specs.Front.{IsGood, IsFlawed};
ghost use Rattle.pyd_lex.specs.Stops.{IfFlaw};

use crate::TokenKind;
use crate::fault::{Flaw, Stop};
use crate::mark::front_mark;
use crate::name::name;
use crate::number::number;
use crate::run::{Class, begins, class_of, comment_run, name_run};
use crate::string::string;
use crate::token::Shape;
use std::alloc::Global;

/// The shape and the length of the longest piece at the front of a text that isn't empty.
pub fn front(alloc: Global, text: &[char]) -> Result<(Shape, usize), Stop>
    requires { 0 < length text.now }
    ensures ok { IfOk result (λ piece. IsGood text.now piece.0 piece.1) }
    ensures flaw { IfErr result (λ e. IfFlaw e (IsFlawed text.now)) }
{
    let c = text[0];
    match class_of(c) {
        Class::Return => Ok((Shape::Break, line_end(text))),
        Class::Hash => Ok((Shape::Comment, comment(text))),
        Class::Quote => quoted(text),
        Class::Digit => numeral(text),
        Class::Letter => word(alloc, text),
        Class::Other => other(c, text),
    }
}

fn line_end(text: &[char]) -> usize
    requires { HasClass Class.Return text.now }
    ensures { IsGood text.now Shape.Break result }
{
    let (_, tail) = text.split_at(1);
    if begins(b"\n", tail) { 2 } else { 1 }
}

fn comment(text: &[char]) -> usize
    requires { HasClass Class.Hash text.now }
    ensures { IsGood text.now Shape.Comment result }
{
    let (_, tail) = text.split_at(1);
    1 + comment_run(tail)
}

fn quoted(text: &[char]) -> Result<(Shape, usize), Stop>
    requires { HasClass Class.Quote text.now }
    ensures ok { IfOk result (λ piece. IsGood text.now piece.0 piece.1) }
    ensures flaw { IfErr result (λ e. IfFlaw e (IsFlawed text.now)) }
{
    let (_, tail) = text.split_at(1);
    match string(text[0], tail) {
        Ok(n) => Ok((Shape::Token(TokenKind::Str), 1 + n)),
        Err(flaw) => Err(Stop::Flaw(flaw)),
    }
}

fn numeral(text: &[char]) -> Result<(Shape, usize), Stop>
    requires { HasClass Class.Digit text.now }
    ensures ok { IfOk result (λ piece. IsGood text.now piece.0 piece.1) }
    ensures flaw { IfErr result (λ e. IfFlaw e (IsFlawed text.now)) }
{
    let (_, tail) = text.split_at(1);
    let n = 1 + name_run(tail);
    let (piece, _) = text.split_at(n);
    match number(piece) {
        Ok(kind) => Ok((Shape::Token(kind), n)),
        Err(flaw) => Err(Stop::Flaw(flaw)),
    }
}

fn word(alloc: Global, text: &[char]) -> Result<(Shape, usize), Stop>
    requires { HasClass Class.Letter text.now }
    ensures ok { IfOk result (λ piece. IsGood text.now piece.0 piece.1) }
    ensures flaw { IfErr result (λ e. IfFlaw e (IsFlawed text.now)) }
{
    let (_, tail) = text.split_at(1);
    let n = 1 + name_run(tail);
    let (piece, _) = text.split_at(n);
    match name(alloc, piece) {
        Ok(kind) => Ok((Shape::Token(kind), n)),
        Err(stop) => Err(stop),
    }
}

/// A space, a tab, a line feed or a mark.
fn other(c: char, text: &[char]) -> Result<(Shape, usize), Stop>
    requires first { HasClass Class.Other text.now }
    requires c { c ≡ slice_index text.now 0 }
    ensures ok { IfOk result (λ piece. IsGood text.now piece.0 piece.1) }
    ensures flaw { IfErr result (λ e. IfFlaw e (IsFlawed text.now)) }
{
    if let Some(shape) = spacing(c) {
        return Ok((shape, 1));
    }
    match front_mark(text) {
        Some((n, mark)) => Ok((Shape::Token(TokenKind::Mark(mark)), n)),
        None => Err(Stop::Flaw(Flaw::BadChar)),
    }
}

fn spacing(c: char) -> Option<Shape>
    ensures { result ≡ spacing c }
{
    match c {
        ' ' => Some(Shape::Space),
        '\t' => Some(Shape::Tab),
        '\n' => Some(Shape::Break),
        _ => None,
    }
}
