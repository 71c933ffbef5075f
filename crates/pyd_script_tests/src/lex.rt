//! Tokens and texts compared with CPython's, and the sources that have none.

mod refused;
mod rows;

use crate::callers::name_at;
use pyd_lex::*;
use std::alloc::{AllocError, Global};
use std::test::Fail;

// The tokens as words, each with its bytes and its line, or why there are none.
fn listed(alloc: Global, source: &[u8]) -> Result<String, AllocError> {
    if source.len() >= 1000 {
        return String::from_str(alloc, "long");
    }
    let all = match tokens(alloc, source) {
        Ok(all) => all,
        Err(LexStop::Fault(fault)) => return format!(in alloc; "{fault:?}"),
        Err(LexStop::NoMemory) => return String::from_str(alloc, "NoMemory"),
    };
    let mut out = String::new(alloc);
    for token in &all {
        if !out.is_empty() {
            out.push(' ')?;
        }
        let Token {
            kind,
            from,
            to,
            line,
        } = *token;
        let word = format!(in alloc; "{kind:?}@{from}-{to}:{line}")?;
        out.push_str(word.as_str())?;
    }
    Ok(out)
}

// The texts of the string tokens, each behind a vertical bar.
fn texts(alloc: Global, source: &[u8]) -> Result<String, AllocError> {
    let mut out = String::new(alloc);
    if source.len() >= 1000 {
        return Ok(out);
    }
    let Ok(all) = tokens(alloc, source) else {
        return Ok(out);
    };
    for token in &all {
        if token.kind == TokenKind::Str {
            out.push('|')?;
            match text_of(alloc, source, token) {
                Ok(text) => out.push_str(text.as_str())?,
                Err(_) => out.push_str("NoMemory")?,
            }
        }
    }
    Ok(out)
}

#[test]
fn tokens_are_those_of_cpython(rt: HostRuntime) -> Result<(), Fail> {
    for (source, want) in &rows::TOKENS {
        assert_eq!(rt;
            listed(rt.alloc(), source.as_bytes())?.as_str(),
            *want,
            "at {source:?}"
        );
    }
    Ok(())
}

#[test]
fn texts_are_those_of_cpython(rt: HostRuntime) -> Result<(), Fail> {
    for (source, want) in rows::TEXTS.iter().chain(&refused::TEXTS) {
        assert_eq!(rt;
            texts(rt.alloc(), source.as_bytes())?.as_str(),
            *want,
            "at {source:?}"
        );
    }
    Ok(())
}

#[test]
fn lines_and_strings_are_read(rt: HostRuntime) -> Result<(), Fail> {
    for (source, want) in refused::LISTED.iter().chain(&refused::LINES) {
        assert_eq!(rt;
            listed(rt.alloc(), source.as_bytes())?.as_str(),
            *want,
            "at {source:?}"
        );
    }
    Ok(())
}

#[test]
fn faults_have_their_line(rt: HostRuntime) -> Result<(), Fail> {
    for (source, want) in refused::CHARS.iter().chain(&refused::NUMBERS) {
        assert_eq!(rt;
            listed(rt.alloc(), source.as_bytes())?.as_str(),
            *want,
            "at {source:?}"
        );
    }
    Ok(())
}

#[test]
fn bytes_outside_utf8_come_first(rt: HostRuntime) -> Result<(), Fail> {
    for (source, want) in &refused::BYTES {
        assert_eq!(rt;
            listed(rt.alloc(), *source)?.as_str(),
            *want,
            "at {source:?}"
        );
    }
    Ok(())
}

#[test]
fn a_caller_reads_names(rt: HostRuntime) -> Result<(), Fail> {
    let source = "if \u{f1} == x\u{30c}: 'x'".as_bytes();
    let mut out = String::new(rt.alloc());
    if let Ok(all) = tokens(rt.alloc(), source) {
        for at in 0..all.len() {
            if let Some(name) = name_at(source, all.as_slice(), at) {
                out.push_str(name)?;
                out.push(' ')?;
            }
        }
    }
    assert_eq!(rt; out.as_str(), "\u{f1} x\u{30c} ");
    Ok(())
}
