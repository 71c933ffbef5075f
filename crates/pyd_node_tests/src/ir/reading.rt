//! Values and faults written in words.

use super::LINE;
use crate::words::value_of;
use pyd_value::{Fault, Kind, List, NoMemory, Value};
use std::alloc::Global;

// The values of words divided by spaces.
pub(super) fn values(alloc: Global, words: &str) -> Result<List<Value>, NoMemory> {
    let mut values = List::new(alloc);
    for word in words.split_whitespace() {
        values.add(value(alloc, word)?)?;
    }
    Ok(values)
}

// A tuple of numbers in parentheses, or another value.
fn value(alloc: Global, word: &str) -> Result<Value, NoMemory> {
    match word.strip_prefix('(') {
        Some(members) => Ok(Value::Tuple(numbers(alloc, members.trim_end_matches(')'))?)),
        None => value_of(alloc, word),
    }
}

fn numbers(alloc: Global, members: &str) -> Result<List<Value>, NoMemory> {
    let mut values = List::new(alloc);
    for member in members.split(',') {
        values.add(value_of(alloc, member)?)?;
    }
    Ok(values)
}

// The exception of this name, if it is one.
pub(super) fn fault(word: &str) -> Option<Fault> {
    let kind = match word {
        "TypeError" => Kind::TypeError,
        "ValueError" => Kind::ValueError,
        "IndexError" => Kind::IndexError,
        "UnboundLocalError" => Kind::UnboundLocalError,
        "ZeroDivisionError" => Kind::ZeroDivisionError,
        "AssertionError" => Kind::AssertionError,
        _ => return None,
    };
    Some(Fault::Raised(kind, LINE))
}
