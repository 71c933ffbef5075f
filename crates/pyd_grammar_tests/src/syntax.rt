//! Sources read by `tokens` and `derive`.

mod rows;

use pyd_lex::{Token, tokens};
use pyd_syntax::*;
use std::alloc::{AllocError, Global};
use std::test::Fail;

// The tokens of a short source; none where it has a fault.
fn read(alloc: Global, source: &str) -> Vec<Token> {
    if source.len() >= 1_000_000 {
        return Vec::new(alloc);
    }
    match tokens(alloc, source.as_bytes()) {
        Ok(all) => all,
        Err(_) => Vec::new(alloc),
    }
}

// The place and the line of the first hopeless token; no place where the source is a script.
fn hopeless(alloc: Global, all: &[Token]) -> Result<Option<(usize, u32)>, Stop> {
    match derive(alloc, all) {
        Ok(_) => Ok(None),
        Err(Stop::Hopeless(at)) if at < all.len() => Ok(Some((at, all[at].line))),
        Err(stop) => Err(stop),
    }
}

// A 1 within many texts.
fn nested(alloc: Global, open: &str, close: &str, times: u32) -> Result<String, AllocError> {
    let mut out = String::new(alloc);
    for _ in 0..times {
        out.push_str(open)?;
    }
    out.push('1')?;
    for _ in 0..times {
        out.push_str(close)?;
    }
    out.push('\n')?;
    Ok(out)
}

#[test]
fn scripts_have_derivations(rt: HostRuntime) -> Result<(), Fail> {
    for source in &rows::SCRIPTS {
        let all = read(rt.alloc(), *source);
        assert_eq!(rt;
            hopeless(rt.alloc(), all.as_slice()),
            Ok(None),
            "at {source:?}"
        );
    }
    Ok(())
}

#[test]
fn the_first_hopeless_token_is_named(rt: HostRuntime) -> Result<(), Fail> {
    for (source, at, line) in &rows::HOPELESS {
        let all = read(rt.alloc(), *source);
        let want = Ok(Some((*at, *line)));
        assert_eq!(rt; hopeless(rt.alloc(), all.as_slice()), want, "at {source:?}");
    }
    Ok(())
}

// What an assignment can't have on its left is left to a later pass.
#[test]
fn targets_are_not_judged(rt: HostRuntime) -> Result<(), Fail> {
    for source in &["1 = 2\n", "() = ()\n", "f() += 1\n"] {
        let all = read(rt.alloc(), *source);
        assert_eq!(rt;
            hopeless(rt.alloc(), all.as_slice()),
            Ok(None),
            "at {source:?}"
        );
    }
    Ok(())
}

#[test]
fn tokens_without_their_end_are_unfinished(rt: HostRuntime) -> Result<(), Fail> {
    assert_eq!(rt; derive(rt.alloc(), &[]), Err(Stop::Unfinished));
    let all = read(rt.alloc(), "def f(a):\n");
    assert_eq!(rt; all.len(), 8);
    for count in 0..7 {
        let front = all.as_slice().get(..count);
        let answer = match front {
            Some(front) => hopeless(rt.alloc(), front),
            None => Ok(None),
        };
        assert_eq!(rt; answer, Err(Stop::Unfinished), "at {count}");
    }
    Ok(())
}

// file, items, item, stmt, simple, then the two tokens of `pass`, then items again and the end.
#[test]
fn steps_are_those_of_the_grammar(rt: HostRuntime) -> Result<(), Fail> {
    let all = read(rt.alloc(), "pass\n");
    let want = [
        Step::Expand(0),
        Step::Expand(1),
        Step::Expand(5),
        Step::Expand(18),
        Step::Expand(34),
        Step::Shift,
        Step::Shift,
        Step::Expand(2),
        Step::Shift,
    ];
    match derive(rt.alloc(), all.as_slice()) {
        Ok(steps) => assert_eq!(rt; steps.as_slice(), &want[..]),
        Err(stop) => assert_eq!(rt; Err(stop), Ok(())),
    }
    Ok(())
}

#[test]
fn depth_needs_no_stack_of_calls(rt: HostRuntime) -> Result<(), Fail> {
    let rows = [
        ("-", "", Ok(None)),
        ("not ", "", Ok(None)),
        ("(", ")", Ok(None)),
        ("x[", "]", Ok(None)),
        ("(", "", Ok(Some((20_001, 2)))),
        ("f(", "", Ok(Some((40_001, 2)))),
    ];
    for (open, close, want) in &rows {
        let source = nested(rt.alloc(), *open, *close, 20_000)?;
        let all = read(rt.alloc(), source.as_str());
        assert_eq!(rt;
            hopeless(rt.alloc(), all.as_slice()),
            *want,
            "at {open:?} {close:?}"
        );
    }
    Ok(())
}
