//! Values compared with CPython's answers, and values that nest deep.

mod calling;
mod pairs;
mod sharing;

use pyd_value::*;
use std::alloc::Global;
use std::test::Fail;

// A tuple of copies of the values at these places.
fn tuple(alloc: Global, values: &List<Value>, places: &[usize]) -> Result<Value, NoMemory> {
    let mut members = List::new(alloc);
    for place in places {
        if let Some(member) = values.get(*place) {
            members.add(try_copy(alloc, member)?)?;
        }
    }
    Ok(Value::Tuple(members))
}

// The values of the table, in its order.
fn values(alloc: Global) -> Result<List<Value>, NoMemory> {
    let mut values = List::new(alloc);
    values.add(Value::None)?;
    values.add(Value::Bool(false))?;
    values.add(Value::Bool(true))?;
    for n in &pairs::INTS {
        values.add(Value::Int(*n))?;
    }
    for text in &pairs::TEXTS {
        values.add(Value::Text(Text::of(alloc, *text)?))?;
    }
    for places in &pairs::TUPLES {
        let next = tuple(alloc, &values, *places)?;
        values.add(next)?;
    }
    Ok(values)
}

// What equality and order say of a pair, as the table marks it.
fn mark(a: &Value, b: &Value) -> char {
    match (equal(a, b), less(a, b)) {
        (true, Ok(false)) => '=',
        (false, Ok(true)) => '<',
        (false, Ok(false)) => '>',
        (false, Err(_)) => '.',
        (true, Err(_)) => '~',
        (true, Ok(true)) => '!',
    }
}

// An integer in as many tuples, one in the other.
fn nested(alloc: Global, n: i128, depth: u32) -> Result<Value, NoMemory> {
    let mut members = List::new(alloc);
    members.add(Value::Int(n))?;
    for _ in 1..depth {
        let mut outer = List::new(alloc);
        outer.add(Value::Tuple(members))?;
        members = outer;
    }
    Ok(Value::Tuple(members))
}

#[test]
fn pairs_compare_as_in_python(rt: HostRuntime) -> Result<(), Fail> {
    let values = values(rt.alloc())?;
    assert_eq!(rt; values.len(), pairs::ANSWERS.len());
    for (i, (a, row)) in values.as_slice().iter().zip(&pairs::ANSWERS).enumerate() {
        let mut marks = row.chars();
        for (j, b) in values.as_slice().iter().enumerate() {
            assert_eq!(rt; Some(mark(a, b)), marks.next(), "values {i} and {j}");
            assert_eq!(rt; same(a, b), i == j, "values {i} and {j}");
        }
        assert_eq!(rt; marks.next(), None);
    }
    Ok(())
}

#[test]
fn values_measure_and_copy(rt: HostRuntime) -> Result<(), Fail> {
    let values = values(rt.alloc())?;
    assert_eq!(rt; values.len(), pairs::MEASURES.len());
    for (value, measures) in values.as_slice().iter().zip(&pairs::MEASURES) {
        assert_eq!(rt; (truth(value), size(value), nest(value)), *measures);
        let copy = try_copy(rt.alloc(), value)?;
        assert_eq!(rt; copy, *value);
        drop(copy);
    }
    let copies = try_copy_members(rt.alloc(), values.as_slice())?;
    assert_eq!(rt; copies, values);
    Ok(())
}

#[test]
fn deep_values_are_taken(rt: HostRuntime) -> Result<(), Fail> {
    let low = nested(rt.alloc(), 0, DEEPEST_NESTING)?;
    let high = nested(rt.alloc(), 1, DEEPEST_NESTING)?;
    assert_eq!(rt; (truth(&low), nest(&low)), (true, DEEPEST_NESTING));
    assert_eq!(rt; mark(&low, &high), '<');
    assert_eq!(rt; mark(&high, &low), '>');
    assert!(rt; same(&try_copy(rt.alloc(), &low)?, &low));
    Ok(())
}

#[test]
fn containers_hold_and_compare(rt: HostRuntime) -> Result<(), Fail> {
    let mut numbers = List::new(rt.alloc());
    assert!(rt; numbers.push(7u32).is_ok());
    assert_eq!(rt; (numbers.len(), numbers.is_empty()), (1, false));
    assert_eq!(rt; (numbers.get(0), numbers.get(1)), (Some(&7), None));
    let boxed = Boxed::new(rt.alloc(), 7u32)?;
    assert_eq!(rt; boxed, Boxed::new(rt.alloc(), *boxed.get())?);
    assert_eq!(rt; boxed.into_inner(), 7);
    let below = Text::of(rt.alloc(), "\u{ffff}")?;
    let above = Text::of(rt.alloc(), "\u{10000}")?;
    assert!(rt; below < above && below != above && !below.is_empty());
    Ok(())
}
