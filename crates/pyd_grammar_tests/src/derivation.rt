//! Trees compared with those of CPython's ast.

mod rows;
mod written;

use crate::reading::source;
use pyd_derivation::tree;
use pyd_lex::tokens;
use pyd_syntax::derive;
use std::alloc::{AllocError, Global};
use std::test::Fail;

// The tree of a source in the written form, or why there is none.
fn shown(alloc: Global, source: &[u8]) -> Result<String, AllocError> {
    let mut out = String::new(alloc);
    if source.len() >= 1000 {
        return Ok(out);
    }
    let Ok(all) = tokens(alloc, source) else {
        out.push_str("no tokens")?;
        return Ok(out);
    };
    let Ok(steps) = derive(alloc, all.as_slice()) else {
        out.push_str("no derivation")?;
        return Ok(out);
    };
    match tree(alloc, source, all.as_slice(), steps.as_slice()) {
        Ok(file) => written::file(&mut out, &file)?,
        Err(_) => out.push_str("no memory")?,
    }
    Ok(out)
}

#[test]
fn trees_are_those_of_cpython(rt: HostRuntime) -> Result<(), Fail> {
    assert_eq!(rt; rows::ROWS.lines().count(), rows::COUNT);
    for row in rows::ROWS.lines() {
        let (text, want) = match row.split_once('\u{2192}') {
            Some(parts) => parts,
            None => (row, "a tree"),
        };
        let text = source(rt.alloc(), text)?;
        let tree = shown(rt.alloc(), text.as_str().as_bytes())?;
        assert_eq!(rt; tree.as_str(), want, "{row}");
    }
    Ok(())
}
