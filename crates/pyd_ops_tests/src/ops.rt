//! Operations compared with CPython's answers, and those that the profile narrows.

mod calling;
mod narrowed;
mod reading;
mod rows;

use pyd_ops::*;
use pyd_value::{Fault, Kind, List, NoMemory, Outcome, UnOp, Value, try_copy};
use reading::{binary_operator, comparison, copies, fault, value};
use std::alloc::Global;
use std::test::Fail;

/// The line that is handed in.
const LINE: u32 = 7;

// What an operation answers.
fn outcome(alloc: Global, word: &str, operands: &[Value]) -> Result<Outcome, NoMemory> {
    match operands {
        [a] => outcome_of_one(alloc, word, a, operands),
        [a, b] => outcome_of_two(alloc, word, a, b, operands),
        [a, low, high] => outcome_of_slice(alloc, a, low, high),
        _ => outcome_of_call(alloc, word, operands),
    }
}

fn outcome_of_one(
    alloc: Global,
    word: &str,
    a: &Value,
    operands: &[Value],
) -> Result<Outcome, NoMemory> {
    match word {
        "Neg" => unary(UnOp::Neg, a, LINE),
        "Pos" => unary(UnOp::Pos, a, LINE),
        "Not" => unary(UnOp::Not, a, LINE),
        "Items" => outcome_of_items(alloc, a),
        _ => outcome_of_call(alloc, word, operands),
    }
}

fn outcome_of_two(
    alloc: Global,
    word: &str,
    a: &Value,
    b: &Value,
    operands: &[Value],
) -> Result<Outcome, NoMemory> {
    if let Some(op) = binary_operator(word) {
        return binary(alloc, op, a, b, LINE);
    }
    if let Some(op) = comparison(word) {
        return Ok(compare(op, a, b, LINE));
    }
    match word {
        "Index" => index(alloc, a, b, LINE),
        "ItemAt" => outcome_of_item(alloc, a, b),
        _ => outcome_of_call(alloc, word, operands),
    }
}

fn outcome_of_call(alloc: Global, word: &str, args: &[Value]) -> Result<Outcome, NoMemory> {
    match word {
        "Len" => builtin(alloc, Builtin::Len, args, LINE),
        "Abs" => builtin(alloc, Builtin::Abs, args, LINE),
        "Min" => builtin(alloc, Builtin::Min, args, LINE),
        "Max" => builtin(alloc, Builtin::Max, args, LINE),
        "Sum" => builtin(alloc, Builtin::Sum, args, LINE),
        _ => builtin(alloc, Builtin::Bool, args, LINE),
    }
}

// A lower bound of `None` is left out, which is as good.
fn outcome_of_slice(
    alloc: Global,
    a: &Value,
    low: &Value,
    high: &Value,
) -> Result<Outcome, NoMemory> {
    let low = match low {
        Value::None => None,
        _ => Some(try_copy(alloc, low)?),
    };
    let high = Some(try_copy(alloc, high)?);
    slice(alloc, a, &Bounds { low, high }, LINE)
}

fn outcome_of_items(alloc: Global, a: &Value) -> Result<Outcome, NoMemory> {
    match items(alloc, a)? {
        Some(members) => Ok(Outcome::Ok(Value::Tuple(members))),
        None => Ok(Outcome::Fault(Fault::Raised(Kind::TypeError, LINE))),
    }
}

fn outcome_of_item(alloc: Global, a: &Value, t: &Value) -> Result<Outcome, NoMemory> {
    let t = match t {
        Value::Int(t) if *t >= 0 && *t < 100 => *t as u64,
        _ => 100,
    };
    match item_at(alloc, a, t)? {
        Some(item) => Ok(Outcome::Ok(item)),
        None => Ok(Outcome::Fault(Fault::Raised(Kind::IndexError, LINE))),
    }
}

// Whether an outcome is the fault of this letter, or else this value.
fn agrees(outcome: &Outcome, mark: &str, wanted: Option<&Value>) -> bool {
    match (outcome, fault(mark)) {
        (Outcome::Ok(value), None) => wanted == Some(value),
        (Outcome::Fault(given), Some(fault)) => *given == fault,
        _ => false,
    }
}

// How many of a line's answers are given.
fn agreed(alloc: Global, values: &List<Value>, line: &str) -> Result<usize, NoMemory> {
    let mut agreed: usize = 0;
    let mut words = line.split_whitespace();
    let Some(word) = words.next() else {
        return Ok(agreed);
    };
    for entry in words {
        if let Some((places, mark)) = entry.split_once(':') {
            let operands = copies(alloc, values, places)?;
            let given = outcome(alloc, word, operands.as_slice())?;
            if agrees(&given, mark, reading::at(values, mark)) {
                agreed = agreed.saturating_add(1);
            }
        }
    }
    Ok(agreed)
}

// The values of the table, in its order.
fn values(alloc: Global) -> Result<List<Value>, NoMemory> {
    let mut values = List::new(alloc);
    for word in rows::VALUES.lines() {
        let next = value(alloc, &values, word)?;
        values.add(next)?;
    }
    Ok(values)
}

#[test]
fn operations_answer_as_in_python(rt: HostRuntime) -> Result<(), Fail> {
    let values = values(rt.alloc())?;
    let mut asked: usize = 0;
    for topic in &rows::TOPICS {
        for line in topic.lines() {
            let agreed = agreed(rt.alloc(), &values, line)?;
            assert_eq!(rt; agreed, line.split_whitespace().skip(1).count(), "{line}");
            asked = asked.saturating_add(agreed);
        }
    }
    assert_eq!(rt; asked, rows::ASKED);
    Ok(())
}
