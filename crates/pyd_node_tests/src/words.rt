//! Values written in words.

use pyd_value::{NoMemory, Text, Value};
use std::alloc::Global;

/// A text behind a quote, a number, a truth value or `None`.
pub fn value_of(alloc: Global, word: &str) -> Result<Value, NoMemory> {
    if let Some(text) = word.strip_prefix('\'') {
        return Ok(Value::Text(Text::of(alloc, text)?));
    }
    match (word, word.parse::<i128>()) {
        ("True", _) => Ok(Value::Bool(true)),
        ("False", _) => Ok(Value::Bool(false)),
        (_, Ok(n)) => Ok(Value::Int(n)),
        (_, Err(_)) => Ok(Value::None),
    }
}
