//! The tokens of a source, in one pass over the pieces of its text.

ghost use Rattle.std.specs.Prelude.{◌≡◌, ◌+◌, ◌-◌, ◌<◌, ◌≤◌, ◌^◌, length, IfOk, IfErr, Ok, Err};
ghost use Rattle.pyd_lex.specs.Lines.{size};
ghost use Rattle.pyd_lex.specs.Reads.{Reads, CutReads, TextReads, has_bom};
ghost use Rattle.pyd_lex.specs.Stops.{IfFault};

use crate::Token;
use crate::cut::front;
use crate::fault::{LexFault, LexStop};
use crate::piece::Piece;
use crate::place::Place;
use crate::scanner::Scanner;
use crate::text::characters;
use std::alloc::Global;

/// The tokens of a source, or its first fault. `bytes` are fewer than `2 ^ 32 - 1`.
pub fn tokens(alloc: Global, bytes: &[u8]) -> Result<Vec<Token>, LexStop>
    requires { length bytes.now < 2 ^ 32 - 1 }
    ensures ok { IfOk result (λ tokens. Reads bytes.now (Ok tokens.items)) }
    ensures fault { IfErr result (λ stop. IfFault stop (λ f. Reads bytes.now (Err f))) }
{
    let text = match str::from_utf8(bytes) {
        Ok(text) => text,
        Err(error) => return Err(LexStop::Fault(LexFault::Utf8(error.valid_up_to() as u32))),
    };
    match characters(alloc, text) {
        Ok(text) => after_bom(alloc, text.as_slice()),
        Err(_) => Err(LexStop::NoMemory),
    }
}

/// The tokens of a text that may begin with a byte order mark.
fn after_bom(alloc: Global, text: &[char]) -> Result<Vec<Token>, LexStop>
    requires { size text.now < 2 ^ 32 - 1 }
    ensures ok { IfOk result (λ tokens. TextReads text.now (Ok tokens.items)) }
    ensures fault { IfErr result (λ stop. IfFault stop (λ f. TextReads text.now (Err f))) }
{
    if has_bom(text) {
        let (_, rest) = text.split_at(1);
        return scanned(alloc, Place { at: 3, line: 1 }, rest);
    }
    scanned(alloc, Place { at: 0, line: 1 }, text)
}

/// Whether a byte order mark is at the front.
fn has_bom(text: &[char]) -> bool
    ensures { result ≡ has_bom text.now }
{
    match text {
        [c, ..] => *c == '\u{feff}',
        [] => false,
    }
}

/// The tokens of a text that begins at this place.
fn scanned(alloc: Global, start: Place, text: &[char]) -> Result<Vec<Token>, LexStop>
    requires at { start.at + size text.now < 2 ^ 32 - 1 }
    requires line { start.line ≤ start.at + 1 }
    ensures ok { IfOk result (λ tokens. CutReads start text.now (Ok tokens.items)) }
    ensures fault { IfErr result (λ stop. IfFault stop (λ f. CutReads start text.now (Err f))) }
{
    let mut scanner = Scanner::new(alloc);
    let mut place = start;
    let mut rest = text;
    while !rest.is_empty() {
        let (shape, len) = match front(alloc, rest) {
            Ok(piece) => piece,
            Err(stop) => return Err(scanner.stopped(stop, place)),
        };
        let (spelling, more) = rest.split_at(len);
        let next = place.after(spelling);
        let piece = Piece {
            shape,
            from: place.at,
            to: next.at,
            line: place.line,
        };
        match scanner.step(piece) {
            Ok(()) => {}
            Err(stop) => return Err(stop),
        }
        place = next;
        rest = more;
    }
    scanner.finish(place)
}
