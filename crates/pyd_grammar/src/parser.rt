//! The parser: the derivation of the tokens, the lines that refuse it, and only then its tree.

ghost use Rattle.std.specs.Prelude.{◌≡◌, ◌<◌, ◌≤◌, length, drop, IfOk, IfErr, Ok, Err};
ghost use Rattle.pyd_lex.specs.Reads.{Reads};
ghost use Rattle.pyd_syntax.specs.Script.{IsDerivation};
ghost use Rattle.pyd_derivation.specs.Derivation.{line_of};
ghost use Rattle.pyd_names.specs.WellFormed.{IsWellFormed};
ghost use Rattle.pyd_grammar.specs.Limits.{longest_source};
ghost use Rattle.pyd_grammar.specs.Parses.{Parses, IfFault};

use crate::fault::{ParseFault, ParseStop};
use pyd_derivation::tree;
use pyd_lex::Token;
use pyd_measure::measure;
use pyd_syntax::{Step, Stop, derive};
use pyd_tree::File;
use std::alloc::Global;

/// The file that the tokens of these bytes are read as, or the first fault, with its line counted
/// from 1: `Syntax` where they have no derivation, with the line of the first token with which no
/// script goes on; else `Deep` where a statement or a header nests too deep; else `Target` where
/// the left side of an assignment isn't a name or a tuple of names that isn't empty, or that of an
/// augmented one isn't a name. No tree that nests too deep is built. docs/FORMATS.md has the
/// grammar, under "The grammar".
pub fn parse(alloc: Global, bytes: &[u8], tokens: &[Token]) -> Result<File, ParseStop>
    requires { Reads bytes.now (Ok tokens.now) }
    ensures ok { IfOk result (λ file. Parses bytes.now tokens.now (Ok file)) }
    ensures fault { IfErr result (λ stop. IfFault stop (λ f. Parses bytes.now tokens.now (Err f))) }
    ensures formed { IfOk result (λ file. length bytes.now ≤ longest_source → IsWellFormed file) }
{
    pyd_lex::token_bytes();
    match derive(alloc, tokens) {
        Ok(steps) => build(alloc, bytes, tokens, steps.as_slice()),
        Err(Stop::Hopeless(at)) => Err(ParseStop::Fault(ParseFault::Syntax(line_at(tokens, at)))),
        Err(Stop::Unfinished) => unreachable!(),
        Err(Stop::NoMemory) => Err(ParseStop::NoMemory),
    }
}

/// The file that the derivation by these steps is read as, or the first fault.
fn build(alloc: Global, bytes: &[u8], tokens: &[Token], steps: &[Step]) -> Result<File, ParseStop>
    requires { IsDerivation steps.now tokens.now }
    ensures ok { IfOk result (λ file. Parses bytes.now tokens.now (Ok file)) }
    ensures fault { IfErr result (λ stop. IfFault stop (λ f. Parses bytes.now tokens.now (Err f))) }
{
    let lines = match measure(alloc, tokens, steps) {
        Ok(lines) => lines,
        Err(_) => return Err(ParseStop::NoMemory),
    };
    match (lines.deep, lines.target) {
        (Some(line), _) => Err(ParseStop::Fault(ParseFault::Deep(line))),
        (None, Some(line)) => Err(ParseStop::Fault(ParseFault::Target(line))),
        (None, None) => match tree(alloc, bytes, tokens, steps) {
            Ok(file) => Ok(file),
            Err(_) => Err(ParseStop::NoMemory),
        },
    }
}

/// The line of the token at this place.
fn line_at(tokens: &[Token], at: usize) -> u32
    requires { at < length tokens.now }
    ensures { result ≡ line_of (drop at tokens.now) }
{
    tokens[at].line
}
