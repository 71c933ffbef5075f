//! Rows read as texts.

use std::alloc::{AllocError, Global};

/// The text of a row, with a line end for each U+00B6.
pub(crate) fn unfolded(alloc: Global, row: &str) -> Result<String, AllocError> {
    let mut text = String::new(alloc);
    for c in row.chars() {
        text.push(if c == '\u{b6}' { '\n' } else { c })?;
    }
    Ok(text)
}
