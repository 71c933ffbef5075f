//! Words read as values and faults.

use super::LINE;
use pyd_value::{Fault, Kind, Limit, List, NoMemory, Text, Value, try_copy};
use std::alloc::Global;

/// The value of a word: an integer, None, False or True, the code points of a text behind a quote,
/// the places of a tuple's members behind a bracket, or behind `#` how deep the empty tuple nests.
pub(crate) fn value(alloc: Global, values: &List<Value>, word: &str) -> Result<Value, NoMemory> {
    if let Some(points) = word.strip_prefix('\'') {
        return text(alloc, points);
    }
    if let Some(places) = word.strip_prefix('(') {
        return Ok(Value::Tuple(copies(alloc, values, places)?));
    }
    if let Some(depth) = word.strip_prefix('#') {
        return nested(alloc, depth.parse::<u32>().unwrap_or(0));
    }
    match word.parse::<i128>() {
        Ok(n) => Ok(Value::Int(n)),
        Err(_) => Ok(constant(word)),
    }
}

fn constant(word: &str) -> Value {
    match word {
        "False" => Value::Bool(false),
        "True" => Value::Bool(true),
        _ => Value::None,
    }
}

// The text of code points in hexadecimal, divided by dots.
fn text(alloc: Global, points: &str) -> Result<Value, NoMemory> {
    let mut text = String::new(alloc);
    for point in points.split('.') {
        if let Ok(code) = u32::from_str_radix(point, 16) {
            if let Some(c) = char::from_u32(code) {
                text.push(c)?;
            }
        }
    }
    Ok(Value::Text(Text::from_string(alloc, text)?))
}

// The empty tuple in as many tuples, with itself.
fn nested(alloc: Global, depth: u32) -> Result<Value, NoMemory> {
    let mut members = List::new(alloc);
    for _ in 1..depth {
        let mut outer = List::new(alloc);
        outer.add(Value::Tuple(members))?;
        members = outer;
    }
    Ok(Value::Tuple(members))
}

/// Copies of the values at places that are divided by commas.
pub(crate) fn copies(
    alloc: Global,
    values: &List<Value>,
    places: &str,
) -> Result<List<Value>, NoMemory> {
    let mut members = List::new(alloc);
    for place in places.split(',') {
        if let Ok(at) = place.parse::<usize>() {
            if let Some(member) = values.get(at) {
                members.add(try_copy(alloc, member)?)?;
            }
        }
    }
    Ok(members)
}

/// The fault of a letter.
pub(crate) fn fault(mark: &str) -> Option<Fault> {
    match mark {
        "T" => Some(Fault::Raised(Kind::TypeError, LINE)),
        "V" => Some(Fault::Raised(Kind::ValueError, LINE)),
        "L" => Some(Fault::Limit(Limit::Int, LINE)),
        "S" => Some(Fault::Limit(Limit::Size, LINE)),
        "O" => Some(Fault::Limit(Limit::Outside, LINE)),
        _ => None,
    }
}
