//! Where the scanner is in a line.

ghost use Rattle.std.specs.Prelude.{◌≡◌, ◌+◌, ◌-◌, ◌<◌, ◌≤◌, ◌^◌};
ghost use Rattle.pyd_lex.specs.Lines.{bracket};
ghost use Rattle.pyd_lex.specs.Machine.{count, indentation_after};

use crate::token::Shape;
use crate::{Mark, TokenKind};

/// Where the scanner is in a logical line (Python Language Reference, section 2.1).
#[derive(Clone, Copy, Debug, PartialEq, Eq)]
pub enum Mode {
    /// Among its leading spaces and tabs, `width` of them so far.
    Indentation { width: u32, tab: bool },
    /// Behind them, in `depth` open brackets. A blank line has no tokens.
    Inside { depth: u32, has_tokens: bool },
}

/// The mode after a piece that is no token, where the line has none so far.
pub fn indentation_after(width: u32, tab: bool, shape: Shape) -> Mode
    requires { width < 2 ^ 32 - 1 }
    ensures value { result ≡ indentation_after width tab shape }
    ensures within { count result ≤ width + 1 }
{
    match shape {
        Shape::Space => Mode::Indentation {
            width: width + 1,
            tab,
        },
        Shape::Tab => Mode::Indentation {
            width: width + 1,
            tab: true,
        },
        Shape::Comment => Mode::Inside {
            depth: 0,
            has_tokens: false,
        },
        Shape::Break => Mode::Indentation {
            width: 0,
            tab: false,
        },
        Shape::Token(_) => Mode::Indentation { width, tab },
    }
}

/// How many brackets are open after a token.
pub fn bracketed(depth: u32, kind: TokenKind) -> u32
    requires { depth < 2 ^ 32 - 1 }
    ensures value { result ≡ bracket depth kind }
    ensures within { result ≤ depth + 1 }
{
    match kind {
        TokenKind::Mark(Mark::LeftParen | Mark::LeftBracket) => depth + 1,
        TokenKind::Mark(Mark::RightParen | Mark::RightBracket) => depth.saturating_sub(1),
        _ => depth,
    }
}
