//! The scanner: what a piece of the text does to the tokens so far.

ghost use Rattle.std.specs.Prelude.{◌≡◌, ◌<◌, ◌≤◌, ◌∷◌, [], false};
ghost use Rattle.pyd_lex.specs.Lines.{token_if};
ghost use Rattle.pyd_lex.specs.Machine.{count};
ghost use Rattle.pyd_lex.specs.Scanner.{IsStep, IsTokenStep, Puts, as_piece};

use crate::fault::LexStop;
use crate::mode::{Mode, bracketed, indentation_after};
use crate::piece::Piece;
use crate::token::Shape;
use crate::{Token, TokenKind};
use std::alloc::Global;

/// The tokens so far, and the widths above 0 of the lines that are begun, the innermost last.
#[derive(Debug, Drop)]
pub struct Scanner {
    pub tokens: Vec<Token>,
    pub widths: Vec<u32>,
    pub mode: Mode,
}

impl Scanner {
    pub fn new(alloc: Global) -> Scanner
        ensures tokens { result.tokens.items ≡ [] }
        ensures widths { result.widths.items ≡ [] }
        ensures mode { result.mode ≡ Mode.Indentation 0 false }
    {
        Scanner {
            tokens: Vec::new(alloc),
            widths: Vec::new(alloc),
            mode: Mode::Indentation {
                width: 0,
                tab: false,
            },
        }
    }

    /// Takes a piece.
    pub fn step(&mut self, piece: Piece) -> Result<(), LexStop>
        requires room { piece.from < piece.to }
        requires within { count self.old.mode ≤ piece.from }
        ensures { IsStep self.old.mode self.old self.new (as_piece piece) result }
    {
        match self.mode {
            Mode::Indentation { width, tab } => self.in_indentation(width, tab, piece),
            Mode::Inside { depth, has_tokens } => self.inside(depth, has_tokens, piece),
        }
    }

    fn in_indentation(&mut self, width: u32, tab: bool, piece: Piece) -> Result<(), LexStop>
        requires mode { self.old.mode ≡ Mode.Indentation width tab }
        requires room { piece.from < piece.to }
        requires within { width ≤ piece.from }
        ensures { IsStep (Mode.Indentation width tab) self.old self.new (as_piece piece) result }
    {
        if let Shape::Token(kind) = piece.shape {
            return self.first_token(width, tab, kind, piece);
        }
        self.mode = indentation_after(width, tab, piece.shape);
        Ok(())
    }

    fn first_token(
        &mut self,
        width: u32,
        tab: bool,
        kind: TokenKind,
        piece: Piece,
    ) -> Result<(), LexStop>
        requires room { piece.from < piece.to }
        ensures { IsTokenStep (Mode.Indentation width tab) self.old self.new kind piece result }
    {
        match self.begin(width, tab, piece.place()) {
            Ok(()) => {}
            Err(stop) => return Err(stop),
        }
        self.mode = Mode::Inside {
            depth: bracketed(0, kind),
            has_tokens: true,
        };
        self.push(piece.token(kind))
    }

    fn inside(&mut self, depth: u32, has_tokens: bool, piece: Piece) -> Result<(), LexStop>
        requires mode { self.old.mode ≡ Mode.Inside depth has_tokens }
        requires room { piece.from < piece.to }
        requires within { depth ≤ piece.from }
        ensures { IsStep (Mode.Inside depth has_tokens) self.old self.new (as_piece piece) result }
    {
        match piece.shape {
            Shape::Token(kind) => self.inner_token(depth, has_tokens, kind, piece),
            Shape::Break => self.line_break(depth, has_tokens, piece),
            _ => Ok(()),
        }
    }

    fn inner_token(
        &mut self,
        depth: u32,
        has_tokens: bool,
        kind: TokenKind,
        piece: Piece,
    ) -> Result<(), LexStop>
        requires room { piece.from < piece.to }
        requires within { depth ≤ piece.from }
        ensures { IsTokenStep (Mode.Inside depth has_tokens) self.old self.new kind piece result }
    {
        self.mode = Mode::Inside {
            depth: bracketed(depth, kind),
            has_tokens,
        };
        self.push_if(has_tokens, piece.token(kind))
    }

    fn line_break(&mut self, depth: u32, has_tokens: bool, piece: Piece) -> Result<(), LexStop>
        requires mode { self.old.mode ≡ Mode.Inside depth has_tokens }
        requires shape { piece.shape ≡ Shape.Break }
        requires room { piece.from < piece.to }
        requires within { depth ≤ piece.from }
        ensures { IsStep (Mode.Inside depth has_tokens) self.old self.new (as_piece piece) result }
    {
        if depth != 0 {
            return Ok(());
        }
        self.mode = Mode::Indentation {
            width: 0,
            tab: false,
        };
        self.push_if(has_tokens, piece.token(TokenKind::Newline))
    }

    pub fn push(&mut self, token: Token) -> Result<(), LexStop>
        ensures puts { Puts self.old self.new (token ∷ []) result }
        ensures widths { self.new.widths.items ≡ self.old.widths.items }
    {
        match self.tokens.push(token) {
            Ok(()) => Ok(()),
            Err(_) => Err(LexStop::NoMemory),
        }
    }

    /// Puts a token of a line that has tokens.
    pub fn push_if(&mut self, has_tokens: bool, token: Token) -> Result<(), LexStop>
        ensures puts { Puts self.old self.new (token_if has_tokens token) result }
        ensures widths { self.new.widths.items ≡ self.old.widths.items }
    {
        if !has_tokens {
            return Ok(());
        }
        self.push(token)
    }
}
