//! Rows read as sources.

use std::alloc::{AllocError, Global};

/// The source of a row: U+00B6 stands for a line end.
pub(crate) fn source(alloc: Global, row: &str) -> Result<String, AllocError> {
    let mut out = String::new(alloc);
    for c in row.chars() {
        out.push(if c == '\u{b6}' { '\n' } else { c })?;
    }
    Ok(out)
}
