//! Why a source has no tokens.

use thiserror::Error;

/// The first fault of a source. `Utf8` has the offset of the first byte that isn't part of valid
/// UTF-8; each other fault has its line, counted from 1.
#[derive(Clone, Copy, Debug, PartialEq, Eq, Error)]
pub enum LexFault {
    #[error("byte {0}: not UTF-8")]
    Utf8(u32),
    #[error("line {0}: a character that begins no token")]
    BadChar(u32),
    #[error("line {0}: a name that isn't in NFKC")]
    BadName(u32),
    #[error("line {0}: a number that isn't well formed")]
    BadNumber(u32),
    #[error("line {0}: a number above the widest integer")]
    WideNumber(u32),
    #[error("line {0}: a string that isn't well formed")]
    BadString(u32),
    #[error("line {0}: a tab before the line's first token")]
    Tab(u32),
    #[error("line {0}: a dedent to no line's width")]
    BadDedent(u32),
}

/// Why `tokens` has no tokens to give.
#[derive(Clone, Copy, Debug, PartialEq, Eq)]
pub enum LexStop {
    Fault(LexFault),
    NoMemory,
}

/// What is wrong with a piece of the text.
#[derive(Clone, Copy, Debug, PartialEq, Eq)]
pub enum Flaw {
    BadChar,
    BadName,
    BadNumber,
    WideNumber,
    BadString,
}

/// Why the piece at the front of a text isn't good.
#[derive(Clone, Copy, Debug, PartialEq, Eq)]
pub enum Stop {
    Flaw(Flaw),
    NoMemory,
}
