//! A good piece of the text.

ghost use Rattle.std.specs.Prelude.{◌≡◌};
ghost use Rattle.pyd_lex.specs.Lines.{place_of, token_at};
ghost use Rattle.pyd_lex.specs.Scanner.{as_piece};

use crate::place::Place;
use crate::token::Shape;
use crate::{Token, TokenKind};

/// A good piece of the text, its bytes from `from` to `to`, and the line that it begins in, counted
/// from 1.
#[derive(Clone, Copy, Debug, PartialEq, Eq)]
pub struct Piece {
    pub shape: Shape,
    pub from: u32,
    pub to: u32,
    pub line: u32,
}

impl Piece {
    /// Where the piece begins.
    pub fn place(self) -> Place
        ensures { result ≡ place_of (as_piece self) }
    {
        Place {
            at: self.from,
            line: self.line,
        }
    }

    /// The token of this kind that the piece spells.
    pub fn token(self, kind: TokenKind) -> Token
        ensures { result ≡ token_at kind (as_piece self) }
    {
        Token {
            kind,
            from: self.from,
            to: self.to,
            line: self.line,
        }
    }
}
