//! Why tokens are read as no file.

use thiserror::Error;

/// The first fault of a source's tokens, with its line, counted from 1.
#[derive(Clone, Copy, Debug, PartialEq, Eq, Error)]
pub enum ParseFault {
    /// The line of the first token with which the tokens begin no script.
    #[error("line {0}: no script goes on so")]
    Syntax(u32),
    /// The line of the first statement or header that nests too deep.
    #[error("line {0}: an expression or a suite that nests too deep")]
    Deep(u32),
    /// The line of the first assignment to what can't be assigned to.
    #[error("line {0}: an assignment to what is no name")]
    Target(u32),
}

/// Why `parse` has no file to give.
#[derive(Clone, Copy, Debug, PartialEq, Eq)]
pub enum ParseStop {
    Fault(ParseFault),
    NoMemory,
}
