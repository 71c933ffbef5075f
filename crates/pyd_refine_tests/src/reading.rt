//! Sources read as programs.

use pyd_grammar::parse;
use pyd_lex::tokens;
use pyd_scope::{Program, check};
use std::alloc::Global;

/// More bytes than any source here.
const LONGEST: usize = 100_000;

/// The program of a short source; none where it is refused.
pub(crate) fn program_of(alloc: Global, source: &str) -> Option<Program> {
    let bytes = source.as_bytes();
    if bytes.len() >= LONGEST {
        return None;
    }
    let Ok(all) = tokens(alloc, bytes) else {
        return None;
    };
    let Ok(file) = parse(alloc, bytes, all.as_slice()) else {
        return None;
    };
    check(alloc, file).ok()
}
