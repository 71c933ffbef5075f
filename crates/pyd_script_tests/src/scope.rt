//! Small sources, and which rule they break by which line.

use crate::reading::{file_of, source};
use pyd_scope::{CheckStop, check};
use std::alloc::{AllocError, Global};
use std::test::Fail;

// The refusal of a row's source, or how many routines and constants its program has.
fn answered(alloc: Global, row: &str) -> Result<String, AllocError> {
    let text = source(alloc, row)?;
    let Some(file) = file_of(alloc, text.as_str()) else {
        return String::from_str(alloc, "no file");
    };
    match check(alloc, file) {
        Ok(program) => {
            let routines = program.routines.len();
            let constants = program.constants.len();
            format!(in alloc; "{routines} {constants}")
        }
        Err(CheckStop::Refused(refusal)) => format!(in alloc; "{refusal:?}"),
        Err(CheckStop::NoMemory) => String::from_str(alloc, "no memory"),
    }
}

#[test]
fn lower_rule_comes_first(rt: HostRuntime) -> Result<(), Fail> {
    let answer = answered(rt.alloc(), "\u{b6}continue\u{b6}break\u{b6}")?;
    assert_eq!(rt; answer.as_str(), "BreakOutside(2)");
    let answer = answered(rt.alloc(), "break\u{b6}return\u{b6}")?;
    assert_eq!(rt; answer.as_str(), "ReturnOutside(2)");
    Ok(())
}

#[test]
fn impure_call_in_an_argument_is_refused(rt: HostRuntime) -> Result<(), Fail> {
    let script =
        "from pydron import functional\u{b6}\u{b6}@functional\u{b6}def f(x):\u{b6}    return abs(print(x))\u{b6}";
    let answer = answered(rt.alloc(), script)?;
    assert_eq!(rt; answer.as_str(), "Impure(5)");
    Ok(())
}

#[test]
fn empty_file_has_the_module_alone(rt: HostRuntime) -> Result<(), Fail> {
    let answer = answered(rt.alloc(), "")?;
    assert_eq!(rt; answer.as_str(), "1 1");
    Ok(())
}
