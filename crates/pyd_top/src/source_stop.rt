//! Why a source has no program.

use pyd_grammar::ParseFault;
use pyd_lex::LexFault;
use pyd_scope::Refusal;

/// Why a source has no program (docs/STATUS.md). Lines count from 1.
#[derive(Clone, Copy, Debug, PartialEq, Eq)]
pub enum SourceStop {
    /// It is longer than sources may be.
    TooLong,
    /// It has no tokens.
    Lex(LexFault),
    /// Its tokens are read as no file.
    Parse(ParseFault),
    /// Its file breaks a rule of scope.
    Scope(Refusal),
    NoMemory,
}
