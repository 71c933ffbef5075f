//! Sources and their answers.

mod rows;

use crate::reading::source;
use pyd_grammar::{ParseFault, ParseStop, parse};
use pyd_lex::tokens;
use pyd_tree::File;
use std::alloc::{AllocError, Global};
use std::test::Fail;

// More bytes than any source here.
const LONGEST: usize = 10_000_000;

// How often a part of a long source is repeated.
const MANY: usize = 500_000;

// Half a million of the first part, the second part, half a million of the third, and a line end.
fn long_source(
    alloc: Global,
    before: &str,
    middle: &str,
    after: &str,
) -> Result<String, AllocError> {
    let mut out = String::new(alloc);
    for _ in 0..MANY {
        out.push_str(before)?;
    }
    out.push_str(middle)?;
    for _ in 0..MANY {
        out.push_str(after)?;
    }
    out.push('\n')?;
    Ok(out)
}

// The answer of `parse` on the tokens of a source, or that there is none.
fn answered(alloc: Global, source: &[u8]) -> Result<String, AllocError> {
    let mut out = String::new(alloc);
    if source.len() >= LONGEST {
        return Ok(out);
    }
    let Ok(all) = tokens(alloc, source) else {
        out.push_str("no tokens")?;
        return Ok(out);
    };
    match parse(alloc, source, all.as_slice()) {
        Ok(file) => {
            drop(file);
            out.push_str("a file")?;
        }
        Err(ParseStop::Fault(fault)) => write!(out, "{fault:?}")?,
        Err(ParseStop::NoMemory) => out.push_str("no memory")?,
    }
    Ok(out)
}

#[test]
fn sources_have_these_answers(rt: HostRuntime) -> Result<(), Fail> {
    assert_eq!(rt; rows::ROWS.lines().count(), rows::COUNT);
    for row in rows::ROWS.lines() {
        let (text, want) = row.split_once('\u{2192}').ok_or("a row")?;
        let text = source(rt.alloc(), text)?;
        let answer = answered(rt.alloc(), text.as_str().as_bytes())?;
        assert_eq!(rt; answer.as_str(), want, "{row}");
    }
    Ok(())
}

#[test]
fn long_sources_have_these_answers(rt: HostRuntime) -> Result<(), Fail> {
    assert_eq!(rt; rows::LONG_ROWS.lines().count(), rows::LONG_COUNT);
    for row in rows::LONG_ROWS.lines() {
        let (before, row) = row.split_once('\u{2192}').ok_or("a row")?;
        let (middle, row) = row.split_once('\u{2192}').ok_or("a row")?;
        let (after, want) = row.split_once('\u{2192}').ok_or("a row")?;
        let text = long_source(rt.alloc(), before, middle, after)?;
        let answer = answered(rt.alloc(), text.as_str().as_bytes())?;
        assert_eq!(rt; answer.as_str(), want, "{before} {middle} {after}");
    }
    Ok(())
}

// The line of the fault that `parse` answers, or 0 where there is a file.
fn line_of(answer: &Result<File, ParseStop>) -> Option<u32> {
    match answer {
        Ok(_) => Some(0),
        Err(
            ParseStop::Fault(
                ParseFault::Syntax(line) | ParseFault::Deep(line) | ParseFault::Target(line),
            ),
        ) => Some(*line),
        Err(ParseStop::NoMemory) => None,
    }
}

#[test]
fn front_parts_are_answered_within_their_lines(rt: HostRuntime) -> Result<(), Fail> {
    let script = rows::SCRIPT.as_bytes();
    assert!(rt; script.len() < LONGEST);
    let mut files = 0usize;
    for end in 0..=script.len() {
        let (front, _) = script.split_at(end);
        let Ok(all) = tokens(rt.alloc(), front) else {
            continue;
        };
        let answer = parse(rt.alloc(), front, all.as_slice());
        let line = line_of(&answer).ok_or("memory")?;
        drop(answer);
        let ends = front.iter().filter(|b| **b == b'\n').count();
        assert!(rt; line as usize <= ends.saturating_add(1), "{end}");
        if line == 0 {
            files = files.saturating_add(1);
        }
    }
    assert_eq!(rt; files, rows::PARSED);
    Ok(())
}
