//! Sources with the lines that they are refused with.

mod rows;

use pyd_lex::tokens;
use pyd_measure::{Measured, measure};
use pyd_syntax::derive;
use std::alloc::{AllocError, Global};
use std::test::Fail;

// The lines that a source is refused with; no answer where it is no script.
fn lines(alloc: Global, source: &str) -> Option<(Option<u32>, Option<u32>)> {
    if source.len() >= 2_000_000 {
        return None;
    }
    let Ok(all) = tokens(alloc, source.as_bytes()) else {
        return None;
    };
    let Ok(steps) = derive(alloc, all.as_slice()) else {
        return None;
    };
    match measure(alloc, all.as_slice(), steps.as_slice()) {
        Ok(Measured { deep, target }) => Some((deep, target)),
        Err(_) => None,
    }
}

// A text so many times.
fn repeated(out: &mut String, text: &str, times: u32) -> Result<(), AllocError> {
    for _ in 0..times {
        out.push_str(text)?;
    }
    Ok(())
}

// A text within others, so many times.
fn nested(alloc: Global, row: &rows::Nested, times: u32) -> Result<String, AllocError> {
    let mut out = String::new(alloc);
    out.push_str(row.front)?;
    repeated(&mut out, row.left, times)?;
    out.push_str(row.middle)?;
    repeated(&mut out, row.right, times)?;
    out.push_str(row.back)?;
    Ok(out)
}

// A statement in so many suites of `if`.
fn within(alloc: Global, statement: &str, suites: u32) -> Result<String, AllocError> {
    let mut out = String::new(alloc);
    for level in 0..suites {
        repeated(&mut out, " ", level)?;
        out.push_str("if x:\n")?;
    }
    repeated(&mut out, " ", suites)?;
    out.push_str(statement)?;
    out.push('\n')?;
    Ok(out)
}

#[test]
fn one_level_more_is_too_deep(rt: HostRuntime) -> Result<(), Fail> {
    for row in &rows::NESTED {
        let fine = nested(rt.alloc(), row, row.fine)?;
        assert_eq!(rt;
            lines(rt.alloc(), fine.as_str()),
            Some((None, None)),
            "{fine:?}"
        );
        let deep = nested(rt.alloc(), row, row.fine.saturating_add(1))?;
        assert_eq!(rt;
            lines(rt.alloc(), deep.as_str()),
            Some((Some(row.line), None)),
            "{deep:?}"
        );
    }
    Ok(())
}

#[test]
fn suites_nest_what_is_in_them(rt: HostRuntime) -> Result<(), Fail> {
    for (suites, statement, deep) in &rows::SUITES {
        let source = within(rt.alloc(), *statement, *suites)?;
        assert_eq!(rt;
            lines(rt.alloc(), source.as_str()),
            Some((*deep, None)),
            "{source:?}"
        );
    }
    Ok(())
}

#[test]
fn the_first_line_of_each_kind_is_found(rt: HostRuntime) -> Result<(), Fail> {
    for (source, deep, target) in &rows::LINES {
        assert_eq!(rt;
            lines(rt.alloc(), *source),
            Some((*deep, *target)),
            "{source:?}"
        );
    }
    Ok(())
}

// A source of a million minus signs before a 1.
fn signs(alloc: Global) -> Result<String, AllocError> {
    let mut out = String::new(alloc);
    repeated(&mut out, "-", 1_000_000)?;
    out.push_str("1\n")?;
    Ok(out)
}

#[test]
fn a_million_signs_are_too_deep(rt: HostRuntime) -> Result<(), Fail> {
    let source = signs(rt.alloc())?;
    assert_eq!(rt; lines(rt.alloc(), source.as_str()), Some((Some(1), None)));
    Ok(())
}
