//! From the bytes of a source to its program.
ghost use Rattle.std.specs.Prelude.{◌≡◌, ◌⊎◌, ◌<◌, ◌≤◌, length, IfOk, IfErr, IsOk, Ok};
ghost use Rattle.pyd_grammar.specs.Limits.{longest_source};
ghost use Rattle.pyd_lex.specs.Reads.{Reads};
ghost use Rattle.pyd_names.specs.WellFormed.{IsWellFormed};
ghost use Rattle.pyd_top.specs.declared.source_stop.SourceStop.TheVariants.{NoMemory};
ghost use Rattle.pyd_top.specs.Accepts.{Fits, Accepted, IsReadAs, IsRefused};

use crate::source_stop::SourceStop;
use pyd_grammar::{ParseStop, parse};
use pyd_lex::{LexStop, Token, tokens};
use pyd_scope::{CheckStop, Program, check};
use pyd_tree::File;
use std::alloc::Global;

/// How many bytes a source may have.
pub(crate) const LONGEST: usize = 1_048_576;

/// The program of a source, or the first cause for which it is refused: its length, its tokens, the
/// grammar, the rules of scope (docs/LANGUAGE.md).
pub fn check_source(alloc: Global, bytes: &[u8]) -> Result<Program, SourceStop>
    ensures fits { IsOk result → Fits bytes.now }
    ensures ok { IfOk result (Accepted bytes.now) }
    ensures err { IfErr result (λ stop. (stop ≡ NoMemory) ⊎ IsRefused bytes.now stop) }
{
    if bytes.len() > LONGEST {
        return Err(SourceStop::TooLong);
    }
    match read_tokens(alloc, bytes) {
        Ok(tokens) => check_tokens(alloc, bytes, &tokens),
        Err(stop) => Err(stop),
    }
}

fn read_tokens(alloc: Global, bytes: &[u8]) -> Result<Vec<Token>, SourceStop>
    requires { Fits bytes.now }
    ensures ok { IfOk result (λ tokens. Reads bytes.now (Ok tokens.items)) }
    ensures err { IfErr result (λ stop. (stop ≡ NoMemory) ⊎ IsRefused bytes.now stop) }
{
    match tokens(alloc, bytes) {
        Ok(tokens) => Ok(tokens),
        Err(LexStop::Fault(fault)) => Err(SourceStop::Lex(fault)),
        Err(LexStop::NoMemory) => Err(SourceStop::NoMemory),
    }
}

/// The program of these tokens of these bytes.
fn check_tokens(alloc: Global, bytes: &[u8], tokens: &[Token]) -> Result<Program, SourceStop>
    requires fits { Fits bytes.now }
    requires reads { Reads bytes.now (Ok tokens.now) }
    ensures ok { IfOk result (Accepted bytes.now) }
    ensures err { IfErr result (λ stop. (stop ≡ NoMemory) ⊎ IsRefused bytes.now stop) }
{
    match read_file(alloc, bytes, tokens) {
        Ok(file) => check_file(alloc, bytes, file),
        Err(stop) => Err(stop),
    }
}

fn read_file(alloc: Global, bytes: &[u8], tokens: &[Token]) -> Result<File, SourceStop>
    requires fits { Fits bytes.now }
    requires reads { Reads bytes.now (Ok tokens.now) }
    ensures ok { IfOk result (IsReadAs bytes.now) }
    ensures formed { IfOk result IsWellFormed }
    ensures err { IfErr result (λ stop. (stop ≡ NoMemory) ⊎ IsRefused bytes.now stop) }
{
    match parse(alloc, bytes, tokens) {
        Ok(file) => Ok(file),
        Err(ParseStop::Fault(fault)) => Err(SourceStop::Parse(fault)),
        Err(ParseStop::NoMemory) => Err(SourceStop::NoMemory),
    }
}

/// The program of a file that these bytes are read as.
fn check_file(alloc: Global, bytes: &[u8], file: File) -> Result<Program, SourceStop>
    requires fits { Fits bytes.now }
    requires read { IsReadAs bytes.now file }
    requires formed { IsWellFormed file }
    ensures ok { IfOk result (Accepted bytes.now) }
    ensures err { IfErr result (λ stop. (stop ≡ NoMemory) ⊎ IsRefused bytes.now stop) }
{
    let _length = bytes.len();
    match check(alloc, file) {
        Ok(program) => Ok(program),
        Err(CheckStop::Refused(refusal)) => Err(SourceStop::Scope(refusal)),
        Err(CheckStop::NoMemory) => Err(SourceStop::NoMemory),
    }
}
