//! Words read as values, faults and operators.

use super::LINE;
use pyd_value::{BinOp, CmpOp, Fault, Kind, Limit, List, NoMemory, Text, Value, try_copy};
use std::alloc::Global;

/// The value of a word: an integer, `None`, `False` or `True`, a text behind a quote, the places of
/// a tuple's members behind a bracket, or behind `#` how deep the empty tuple nests with its tuples.
pub(crate) fn value(alloc: Global, values: &List<Value>, word: &str) -> Result<Value, NoMemory> {
    if let Some(text) = word.strip_prefix('\'') {
        return Ok(Value::Text(Text::of(alloc, text)?));
    }
    if let Some(places) = word.strip_prefix('(') {
        return Ok(Value::Tuple(copies(alloc, values, places)?));
    }
    if let Some(depth) = word.strip_prefix('#') {
        return nested(alloc, depth.parse::<u32>().unwrap_or(0));
    }
    match word.parse::<i128>() {
        Ok(n) => Ok(Value::Int(n)),
        Err(_) => Ok(constant(word)),
    }
}

fn constant(word: &str) -> Value {
    match word {
        "False" => Value::Bool(false),
        "True" => Value::Bool(true),
        _ => Value::None,
    }
}

// The empty tuple in as many tuples, with itself.
fn nested(alloc: Global, depth: u32) -> Result<Value, NoMemory> {
    let mut members = List::new(alloc);
    for _ in 1..depth {
        let mut outer = List::new(alloc);
        outer.add(Value::Tuple(members))?;
        members = outer;
    }
    Ok(Value::Tuple(members))
}

/// The value at a place.
pub(crate) fn at<'a>(values: &'a List<Value>, place: &str) -> Option<&'a Value> {
    match place.parse::<usize>() {
        Ok(at) => values.get(at),
        Err(_) => None,
    }
}

/// Copies of the values at places that are divided by commas.
pub(crate) fn copies(
    alloc: Global,
    values: &List<Value>,
    places: &str,
) -> Result<List<Value>, NoMemory> {
    let mut members = List::new(alloc);
    for place in places.split(',') {
        if let Some(member) = at(values, place) {
            members.add(try_copy(alloc, member)?)?;
        }
    }
    Ok(members)
}

/// The fault of a letter.
pub(crate) fn fault(mark: &str) -> Option<Fault> {
    match mark {
        "T" => Some(Fault::Raised(Kind::TypeError, LINE)),
        "V" => Some(Fault::Raised(Kind::ValueError, LINE)),
        "I" => Some(Fault::Raised(Kind::IndexError, LINE)),
        "Z" => Some(Fault::Raised(Kind::ZeroDivisionError, LINE)),
        "L" => Some(Fault::Limit(Limit::Int, LINE)),
        "S" => Some(Fault::Limit(Limit::Size, LINE)),
        "O" => Some(Fault::Limit(Limit::Outside, LINE)),
        _ => None,
    }
}

/// The operator between two operands that has this name.
pub(crate) fn binary_operator(word: &str) -> Option<BinOp> {
    match word {
        "Add" => Some(BinOp::Add),
        "Sub" => Some(BinOp::Sub),
        "Mul" => Some(BinOp::Mul),
        "Div" => Some(BinOp::Div),
        "Mod" => Some(BinOp::Mod),
        "Pow" => Some(BinOp::Pow),
        "Shl" => Some(BinOp::Shl),
        "Shr" => Some(BinOp::Shr),
        "And" => Some(BinOp::And),
        "Or" => Some(BinOp::Or),
        "Xor" => Some(BinOp::Xor),
        _ => None,
    }
}

/// The comparison that has this name.
pub(crate) fn comparison(word: &str) -> Option<CmpOp> {
    match word {
        "Eq" => Some(CmpOp::Eq),
        "Ne" => Some(CmpOp::Ne),
        "Lt" => Some(CmpOp::Lt),
        "Le" => Some(CmpOp::Le),
        "Gt" => Some(CmpOp::Gt),
        "Ge" => Some(CmpOp::Ge),
        "In" => Some(CmpOp::In),
        "NotIn" => Some(CmpOp::NotIn),
        _ => None,
    }
}
