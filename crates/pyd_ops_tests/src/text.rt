//! Texts compared with CPython's, the limits on sizes, and calls by their counts of arguments.

mod limits;
mod reading;
mod rows;

use pyd_text::*;
use pyd_value::{List, NoMemory, Outcome, Text, Value};
use reading::{copies, fault, value};
use std::alloc::Global;
use std::test::Fail;

/// The line that is handed in.
const LINE: u32 = 7;

// Whether an outcome is this text.
fn is_text(outcome: &Outcome, wanted: &Text) -> bool {
    match outcome {
        Outcome::Ok(Value::Text(text)) => *text == *wanted,
        _ => false,
    }
}

// Whether an outcome is the fault of this letter, or else this integer.
fn is_integer(outcome: &Outcome, mark: &str) -> bool {
    match (outcome, fault(mark)) {
        (Outcome::Ok(Value::Int(n)), None) => mark.parse::<i128>() == Ok(*n),
        (Outcome::Fault(given), Some(fault)) => *given == fault,
        _ => false,
    }
}

// Whether the texts of a value are these: the `str` of a text is itself, of others their `repr`.
fn has_texts(alloc: Global, a: &Value, repr: &str) -> Result<bool, NoMemory> {
    let wanted = Text::of(alloc, repr)?;
    let (short, long) = (str_of(alloc, a, LINE)?, repr_of(alloc, a, LINE)?);
    let agrees = match a {
        Value::Text(text) => is_text(&short, text),
        _ => is_text(&short, &wanted),
    };
    Ok(agrees && is_text(&long, &wanted))
}

// The values of the table, in its order.
fn values(alloc: Global) -> Result<List<Value>, NoMemory> {
    let mut values = List::new(alloc);
    for row in rows::REPRS.lines() {
        if let Some((word, _)) = row.split_once(" = ") {
            let next = value(alloc, &values, word)?;
            values.add(next)?;
        }
    }
    Ok(values)
}

#[test]
fn texts_are_as_in_python(rt: HostRuntime) -> Result<(), Fail> {
    let values = values(rt.alloc())?;
    for (a, row) in values.as_slice().iter().zip(rows::REPRS.lines()) {
        let (_, repr) = row.split_once(" = ").ok_or("a row")?;
        assert!(rt; has_texts(rt.alloc(), a, repr)?, "{row}");
    }
    for row in rows::LINES.lines() {
        let (places, line) = row.split_once(" = ").ok_or("a row")?;
        let args = copies(rt.alloc(), &values, places)?;
        let given = line_of(rt.alloc(), args.as_slice(), LINE)?;
        assert!(rt; is_text(&given, &Text::of(rt.alloc(), line)?), "{row}");
    }
    Ok(())
}

#[test]
fn integers_are_as_in_python(rt: HostRuntime) -> Result<(), Fail> {
    for row in rows::INTEGERS.split('|') {
        let (mark, text) = row.split_once('=').ok_or("a row")?;
        let given = int_of(&Value::Text(Text::of(rt.alloc(), text)?), LINE)?;
        assert!(rt; is_integer(&given, mark), "{row}");
    }
    assert!(rt; is_integer(&int_of(&Value::Bool(true), LINE)?, "1"));
    assert!(rt;
        is_integer(
            &int_of(&Value::Int(i128::MIN), LINE)?,
            "-170141183460469231731687303715884105728"
        )
    );
    assert!(rt; is_integer(&int_of(&Value::None, LINE)?, "T"));
    assert!(rt; is_integer(&int_of(&Value::Tuple(List::new(rt.alloc())), LINE)?, "T"));
    Ok(())
}
