//! Operations that the profile narrows, or answers where CPython has no answer, one by one.

use super::reading::{fault, value};
use super::{LINE, agrees, outcome};
use pyd_ops::*;
use pyd_value::{BinOp, List, NoMemory, Outcome, Value, nest, size};
use std::alloc::Global;
use std::test::Fail;

/// An operation, its operands, and its value or the letter of its fault, at the ends of integers,
/// shifts, powers, repeats, sizes and nestings.
const NARROWED: &str = "\
Shl -1 127 = -170141183460469231731687303715884105728
Shl 1 127 = L
Shl -1 128 = L
Shl 1 126 = 85070591730234615865843651857942052864
Shl 2 126 = L
Shl -2 126 = -170141183460469231731687303715884105728
Shl 0 1267650600228229401496703205376 = 0
Shl 1 1267650600228229401496703205376 = L
Shl 1 -1267650600228229401496703205376 = V
Shr -1 1267650600228229401496703205376 = -1
Shr 7 1267650600228229401496703205376 = 0
Shr -170141183460469231731687303715884105728 127 = -1
Shr -170141183460469231731687303715884105728 126 = -2
Shr -7 1 = -4
Pow 1 1267650600228229401496703205376 = 1
Pow -1 1267650600228229401496703205376 = 1
Pow -1 1267650600228229401496703205377 = -1
Pow 0 1267650600228229401496703205376 = 0
Pow 2 1267650600228229401496703205376 = L
Pow -2 1267650600228229401496703205376 = L
Pow 2 126 = 85070591730234615865843651857942052864
Pow 2 127 = L
Pow -2 127 = -170141183460469231731687303715884105728
Pow -2 128 = L
Pow 2 -1 = O
Pow 2 -1267650600228229401496703205376 = O
Pow 0 -1267650600228229401496703205376 = Z
Pow 0 0 = 1
Div -170141183460469231731687303715884105728 -1 = L
Mod -170141183460469231731687303715884105728 -1 = 0
Neg -170141183460469231731687303715884105728 = L
Pos -170141183460469231731687303715884105728 = -170141183460469231731687303715884105728
Abs -170141183460469231731687303715884105728 = L
In -170141183460469231731687303715884105728 #2 = False
Mod '%s 1 = O
Mul ' 1267650600228229401496703205376 = '
Mul 1267650600228229401496703205376 ' = '
Mul 'a 1267650600228229401496703205376 = S
Mul 'a -1267650600228229401496703205376 = '
Mul 'a 1048576 = S
Mul '\u{10000} 262144 = S
Mul #1 1267650600228229401496703205376 = #1
Mul #2 1267650600228229401496703205376 = S
Mul #2 -1267650600228229401496703205376 = #1
Mul #100 1 = #100
Mul #101 1 = S
Add #100 #1 = #100
Add #1 #101 = S
";

/// The arguments of `range`, and where it begins, its step and its count.
const RANGES: &str = "\
0 10 3 = 0 3 4
5 0 -2 = 5 -2 3
0 0 = 0 1 0
3 = 0 1 3
-3 = 0 1 0
10 0 3 = 10 3 0
0 10 -3 = 0 -3 0
2 9 7 = 2 7 1
True = 0 1 1
-170141183460469231731687303715884105728 170141183460469231731687303715884105727 = -170141183460469231731687303715884105728 1 170141183460469231731687303715884105727
170141183460469231731687303715884105727 -170141183460469231731687303715884105728 -1 = 170141183460469231731687303715884105727 -1 170141183460469231731687303715884105727
-170141183460469231731687303715884105728 170141183460469231731687303715884105727 -170141183460469231731687303715884105728 = -170141183460469231731687303715884105728 -170141183460469231731687303715884105728 0
0 1 0 = V
= T
0 1 2 3 = T
None = T
";

// The values of words.
fn operands(alloc: Global, asked: &str) -> Result<List<Value>, NoMemory> {
    let none = List::new(alloc);
    let mut operands = List::new(alloc);
    for word in asked.split_whitespace() {
        let operand = value(alloc, &none, word)?;
        operands.add(operand)?;
    }
    Ok(operands)
}

// Whether the operation of a row answers as the row says.
fn row_agrees(alloc: Global, row: &str) -> Result<bool, NoMemory> {
    let Some((asked, mark)) = row.split_once('=') else {
        return Ok(false);
    };
    let Some((word, asked)) = asked.split_once(' ') else {
        return Ok(false);
    };
    let given = operands(alloc, asked)?;
    let wanted = operands(alloc, mark)?;
    let answer = outcome(alloc, word, given.as_slice())?;
    Ok(agrees(&answer, mark.trim(), wanted.get(0)))
}

#[test]
fn narrowed_operations_answer_at_once(rt: HostRuntime) -> Result<(), Fail> {
    let mut agreed: usize = 0;
    for row in NARROWED.lines() {
        assert!(rt; row_agrees(rt.alloc(), row)?, "{row}");
        agreed = agreed.saturating_add(1);
    }
    assert_eq!(rt; agreed, 48);
    Ok(())
}

// The size and nesting of what an operation gives.
fn measures(outcome: &Outcome) -> (u64, u32) {
    match outcome {
        Outcome::Ok(value) => (size(value), nest(value)),
        Outcome::Fault(_) => (0, 0),
    }
}

#[test]
fn largest_values_are_made(rt: HostRuntime) -> Result<(), Fail> {
    let most = operands(rt.alloc(), "'a 1048575 #2")?;
    if let [one, most, pair] = most.as_slice() {
        let text = binary(rt.alloc(), BinOp::Mul, one, most, LINE)?;
        assert_eq!(rt; measures(&text), (1_048_576, 0));
        let tuple = binary(rt.alloc(), BinOp::Mul, most, pair, LINE)?;
        assert_eq!(rt; measures(&tuple), (1_048_576, 2));
    }
    assert_eq!(rt; most.len(), 3);
    Ok(())
}

// Whether a range has these numbers.
fn range_agrees(alloc: Global, row: &str) -> Result<bool, NoMemory> {
    let Some((asked, mark)) = row.split_once('=') else {
        return Ok(false);
    };
    let args = operands(alloc, asked)?;
    let wanted = operands(alloc, mark)?;
    match range_of(args.as_slice(), LINE) {
        Ok(span) => Ok(numbers_are(wanted.as_slice(), span)),
        Err(given) => Ok(fault(mark.trim()) == Some(given)),
    }
}

fn numbers_are(wanted: &[Value], span: Span) -> bool {
    match wanted {
        [Value::Int(from), Value::Int(step), Value::Int(count)] => {
            *from == span.from && *step == span.step && *count == span.count
        }
        _ => false,
    }
}

#[test]
fn ranges_count_their_numbers(rt: HostRuntime) -> Result<(), Fail> {
    let mut agreed: usize = 0;
    for row in RANGES.lines() {
        assert!(rt; range_agrees(rt.alloc(), row)?, "{row}");
        agreed = agreed.saturating_add(1);
    }
    assert_eq!(rt; agreed, 16);
    Ok(())
}

#[test]
fn an_upper_bound_may_be_left_out(rt: HostRuntime) -> Result<(), Fail> {
    let given = operands(rt.alloc(), "'hello 'llo")?;
    let by = Bounds {
        low: Some(Value::Int(-3)),
        high: None,
    };
    if let [whole, part] = given.as_slice() {
        let outcome = slice(rt.alloc(), whole, &by, LINE)?;
        assert!(rt; agrees(&outcome, "", Some(part)));
        assert!(rt; agrees(&contains(part, whole, LINE), "", Some(&Value::Bool(true))));
    }
    assert_eq!(rt; given.len(), 2);
    Ok(())
}
