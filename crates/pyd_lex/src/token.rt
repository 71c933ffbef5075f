//! A token, and the shape of a piece of the text.

use crate::{Mark, Word};

/// What a token is (Python Language Reference, section 2, "Lexical analysis").
#[derive(Clone, Copy, Debug, PartialEq, Eq)]
pub enum TokenKind {
    Name,
    /// An integer literal, with its value.
    Int(i128),
    /// A string literal. [`text_of`](crate::text_of) gives its value.
    Str,
    Word(Word),
    Mark(Mark),
    /// The end of a logical line.
    Newline,
    Indent,
    Dedent,
    /// The end of the source.
    End,
}

/// A token, the bytes `from` to `to` that spell it, and the line that it begins in, counted from 1.
#[derive(Clone, Copy, Debug, PartialEq, Eq)]
pub struct Token {
    pub kind: TokenKind,
    pub from: u32,
    pub to: u32,
    pub line: u32,
}

/// What a good piece of the text is.
#[derive(Clone, Copy, Debug, PartialEq, Eq)]
pub enum Shape {
    Space,
    Tab,
    Comment,
    /// The end of a physical line.
    Break,
    Token(TokenKind),
}
