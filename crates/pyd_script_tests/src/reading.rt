//! Rows read as sources, and sources read as files.
ghost use Rattle.std.specs.Prelude.{IfSome};
ghost use Rattle.pyd_names.specs.WellFormed.{IsWellFormed};

use pyd_grammar::parse;
use pyd_lex::tokens;
use pyd_tree::File;
use std::alloc::{AllocError, Global};

/// The source of a row: U+00B6 stands for a line end.
pub(crate) fn source(alloc: Global, row: &str) -> Result<String, AllocError> {
    let mut out = String::new(alloc);
    for c in row.chars() {
        out.push(if c == '\u{b6}' { '\n' } else { c })?;
    }
    Ok(out)
}

/// The file of a short source; none where it is no script.
pub(crate) fn file_of(alloc: Global, source: &str) -> Option<File>
    ensures { IfSome result (λ file. IsWellFormed file) }
{
    let bytes = source.as_bytes();
    if bytes.len() > 1000 {
        return None;
    }
    let Ok(all) = tokens(alloc, bytes) else {
        return None;
    };
    let Ok(file) = parse(alloc, bytes, all.as_slice()) else {
        return None;
    };
    Some(file)
}
