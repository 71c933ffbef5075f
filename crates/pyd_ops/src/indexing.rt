//! Indexing and slicing of texts and tuples (Python Language Reference, sections 6.3.2 and 6.3.3).
ghost use Rattle.std.specs.Prelude.{◌≡◌, ◌≤◌, ◌<◌, length, IfOk, IfSome, Some};
ghost use Rattle.pyd_value.specs.Shape.{shape_of};
ghost use Rattle.pyd_ops.specs.Answer.{Answers};
ghost use Rattle.pyd_ops.specs.Sequence.{character};
ghost use Rattle.pyd_ops.specs.Indexing as spec;

use crate::answer::raise;
use crate::sequence::{character, characters, text_from};
use pyd_value::{Kind, NoMemory, Outcome, Text, Value, number, try_copy, try_copy_members};
use std::alloc::Global;

/// The bounds of a slice, each of which may be absent.
#[derive(Debug, Drop)]
pub struct Bounds {
    pub low: Option<Value>,
    pub high: Option<Value>,
}

/// The character of a text or the member of a tuple at an index, which counts from the end where it
/// is negative: `IndexError` where it is outside, `TypeError` for other kinds.
pub fn index(alloc: Global, a: &Value, i: &Value, line: u32) -> Result<Outcome, NoMemory>
    ensures { Answers result (spec.index a.now i.now line) }
{
    match (a, number(i)) {
        (Value::Text(text), Some(i)) => index_text(alloc, text, i, line),
        (Value::Tuple(members), Some(i)) => index_tuple(alloc, members.as_slice(), i, line),
        _ => Ok(raise(Kind::TypeError, line)),
    }
}

fn index_tuple(alloc: Global, members: &[Value], i: i128, line: u32) -> Result<Outcome, NoMemory>
    ensures { Answers result (spec.item_or_error (λ x. x) (spec.item members.now i) line) }
{
    match place(i, members.len()) {
        Some(at) => Ok(Outcome::Ok(try_copy(alloc, &members[at])?)),
        None => Ok(raise(Kind::IndexError, line)),
    }
}

fn index_text(alloc: Global, text: &Text, i: i128, line: u32) -> Result<Outcome, NoMemory>
    ensures { Answers result (spec.item_or_error character (spec.item text.now i) line) }
{
    match character_of(text, i) {
        Some(c) => Ok(Outcome::Ok(character(alloc, c)?)),
        None => Ok(raise(Kind::IndexError, line)),
    }
}

/// The character at an index. Where the text is ASCII no other is walked.
fn character_of(text: &Text, i: i128) -> Option<char>
    ensures { result ≡ spec.item text.now i }
{
    match place(i, text.count()) {
        Some(at) => text.get(at),
        None => None,
    }
}

/// Where an index points, if it is within.
fn place(i: i128, len: usize) -> Option<usize>
    ensures value { result ≡ spec.place i len }
    ensures within { IfSome result (λ at. at < len) }
{
    let distance = i.unsigned_abs();
    if i >= 0 && distance < len as u128 {
        Some(distance as usize)
    } else if i < 0 && distance <= len as u128 {
        Some(len - distance as usize)
    } else {
        None
    }
}

/// The part of a text or tuple between two bounds, each a number, `None` or absent. A bound counts
/// from the end where it is negative, and is cut to the beginning and the end. `TypeError` for
/// other kinds.
pub fn slice(alloc: Global, a: &Value, by: &Bounds, line: u32) -> Result<Outcome, NoMemory>
    ensures { Answers result (spec.slice a.now by.now line) }
{
    match (bound(&by.low), bound(&by.high)) {
        (Some(low), Some(high)) => slice_in(alloc, a, low, high, line),
        _ => Ok(raise(Kind::TypeError, line)),
    }
}

fn bound(at: &Option<Value>) -> Option<Option<i128>>
    ensures { result ≡ spec.bound at.now }
{
    match at {
        None | Some(Value::None) => Some(None),
        Some(v) => Some(Some(number(v)?)),
    }
}

fn slice_in(
    alloc: Global,
    a: &Value,
    low: Option<i128>,
    high: Option<i128>,
    line: u32,
) -> Result<Outcome, NoMemory>
    ensures { Answers result (spec.slice_in (shape_of a.now) (Some low) (Some high) line) }
{
    match a {
        Value::Text(text) => Ok(Outcome::Ok(Value::Text(slice_text(alloc, text, low, high)?))),
        Value::Tuple(members) => {
            let members = members.as_slice();
            let (from, to) = bound_positions(low, high, members.len());
            Ok(Outcome::Ok(Value::Tuple(try_copy_members(
                alloc,
                items_between(members, from, to),
            )?)))
        }
        _ => Ok(raise(Kind::TypeError, line)),
    }
}

fn slice_text(
    alloc: Global,
    text: &Text,
    low: Option<i128>,
    high: Option<i128>,
) -> Result<Text, NoMemory>
    ensures { IfOk result (λ t. t ≡ spec.slice_items text.now low high) }
{
    let characters = characters(alloc, text)?;
    let (from, to) = bound_positions(low, high, characters.len());
    text_from(alloc, items_between(characters.as_slice(), from, to))
}

/// The places of both bounds.
fn bound_positions(low: Option<i128>, high: Option<i128>, len: usize) -> (usize, usize)
    ensures low { result.0 ≡ spec.bound_position low 0 len }
    ensures high { result.1 ≡ spec.bound_position high len len }
    ensures low_within { result.0 ≤ len }
    ensures high_within { result.1 ≤ len }
{
    (bound_position(low, 0, len), bound_position(high, len, len))
}

fn bound_position(bound: Option<i128>, absent: usize, len: usize) -> usize
    requires { absent ≤ len }
    ensures value { result ≡ spec.bound_position bound absent len }
    ensures within { result ≤ len }
{
    match bound {
        Some(i) if i < 0 => len - i.unsigned_abs().min(len as u128) as usize,
        Some(i) => i.unsigned_abs().min(len as u128) as usize,
        None => absent,
    }
}

/// The items from one place to another, none where they cross.
fn items_between<T>(items: &[T], from: usize, to: usize) -> &[T]
    requires from { from ≤ length items.now }
    requires to { to ≤ length items.now }
    ensures { result.now ≡ spec.items_between items.now from to }
{
    if from < to {
        &items[from..to]
    } else {
        &items[from..from]
    }
}
