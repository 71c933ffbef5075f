//! Sizes at the limit, and counts of arguments.
ghost use Rattle.std.specs.Prelude.{IsTrue};
ghost use Rattle.pyd_text.specs.Calls.{is_of_texts};

use super::reading::fault;
use super::{LINE, is_integer, is_text};
use pyd_text::*;
use pyd_value::{Builtin, NoMemory, Outcome, Text, Value, size, try_copy};
use std::alloc::Global;
use std::test::Fail;

/// Characters, how many of them make a text, and the sizes of its `str` and its `repr`, or `S`. A
/// text takes 1 and its bytes, and at most 1048576.
const SIZES: &str = "\
61 1048573 1048574 1048576
61 1048574 1048575 S
61 1048576 S S
a 524286 524287 1048575
a 524287 524288 S
10000 262143 1048573 1048575
10ffff 104857 419429 1048573
10ffff 104858 419433 S";

/// Calls of the first of True, 2 and None, how many of these, and the answer: a text behind a quote,
/// an integer, or the letter of a fault.
const CALLS: &str = "\
Str 0 '
Str 1 'True
Str 2 T
Repr 0 T
Repr 1 'True
Repr 2 T
Int 0 0
Int 1 1
Int 2 O
Int 3 T";

fn called(name: &str) -> Builtin
    ensures { IsTrue (is_of_texts result) }
{
    match name {
        "Str" => Builtin::Str,
        "Repr" => Builtin::Repr,
        _ => Builtin::Int,
    }
}

// Whether an outcome is a text behind a quote, an integer or the fault of a letter.
fn is_answer(alloc: Global, outcome: &Outcome, mark: &str) -> Result<bool, NoMemory> {
    match mark.strip_prefix('\'') {
        Some(text) => Ok(is_text(outcome, &Text::of(alloc, text)?)),
        None => Ok(is_integer(outcome, mark)),
    }
}

// So many times a character.
fn repeated(alloc: Global, c: char, count: usize) -> Result<Value, NoMemory> {
    let mut text = String::new(alloc);
    for _ in 0..count {
        text.push(c)?;
    }
    Ok(Value::Text(Text::from_string(alloc, text)?))
}

// Whether an outcome is a text of this size, or the fault of this letter.
fn has_size(outcome: &Outcome, mark: &str) -> bool {
    match (outcome, fault(mark)) {
        (Outcome::Ok(text), None) => mark.parse::<u64>() == Ok(size(text)),
        (Outcome::Fault(given), Some(fault)) => *given == fault,
        _ => false,
    }
}

// Whether a row of the table is as it says.
fn is_so(alloc: Global, row: &str) -> Result<bool, NoMemory> {
    let mut words = row.split(' ');
    let (c, count) = (words.next().unwrap_or(""), words.next().unwrap_or(""));
    let (short, long) = (words.next().unwrap_or(""), words.next().unwrap_or(""));
    let c = char::from_u32(u32::from_str_radix(c, 16).unwrap_or(0)).unwrap_or('?');
    let text = repeated(alloc, c, count.parse::<usize>().unwrap_or(0))?;
    let agrees = has_size(&str_of(alloc, &text, LINE)?, short)
        && has_size(&repr_of(alloc, &text, LINE)?, long);
    drop(text);
    Ok(agrees)
}

#[test]
fn sizes_end_at_the_limit(rt: HostRuntime) -> Result<(), Fail> {
    for row in SIZES.lines() {
        assert!(rt; is_so(rt.alloc(), row)?, "{row}");
    }
    let half = repeated(rt.alloc(), 'a', 524287)?;
    let args = [try_copy(rt.alloc(), &half)?, try_copy(rt.alloc(), &half)?];
    assert!(rt; has_size(&line_of(rt.alloc(), &args, LINE)?, "1048576"));
    let args = [half, repeated(rt.alloc(), 'a', 524288)?];
    assert!(rt; has_size(&line_of(rt.alloc(), &args, LINE)?, "S"));
    Ok(())
}

#[test]
fn calls_go_by_their_counts(rt: HostRuntime) -> Result<(), Fail> {
    let args = [Value::Bool(true), Value::Int(2), Value::None];
    for row in CALLS.lines() {
        let mut words = row.split(' ');
        let (name, count) = (
            words.next().ok_or("a name")?,
            words.next().ok_or("a count")?,
        );
        let args = args.get(..count.parse::<usize>()?).ok_or("arguments")?;
        let given = text_builtin(rt.alloc(), called(name), args, LINE)?;
        assert!(rt;
            is_answer(rt.alloc(), &given, words.next().ok_or("an answer")?)?,
            "{row}"
        );
    }
    Ok(())
}
