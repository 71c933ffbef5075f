//! The items of a value: the characters of a text or the members of a tuple.
ghost use Rattle.std.specs.Prelude.{◌≡◌, IfOk, string_bytes, encode_utf8_all, map, slice_get};
ghost use Rattle.pyd_ops.specs.Sequence as spec;

use pyd_value::{List, NoMemory, Text, Value, try_copy};
use std::alloc::Global;

/// The characters of a text, each a text of its own, or the members of a tuple, as unpacking wants
/// them. `None` for what is neither. The members are shared with the tuple and aren't walked.
pub fn items(alloc: Global, a: &Value) -> Result<Option<List<Value>>, NoMemory>
    ensures { IfOk result (λ items. items ≡ spec.items a.now) }
{
    match a {
        Value::Text(text) => {
            let characters = characters(alloc, text)?;
            Ok(Some(character_values(alloc, characters.as_slice())?))
        }
        Value::Tuple(members) => Ok(Some(members.try_clone()?)),
        _ => Ok(None),
    }
}

/// Item number `t`, counted from 0, as a loop wants it turn by turn. `None` past the end, and for
/// what is neither text nor tuple. Of a tuple or an ASCII text no item before it is walked.
pub fn item_at(alloc: Global, a: &Value, t: u64) -> Result<Option<Value>, NoMemory>
    ensures { IfOk result (λ item. item ≡ spec.item_at a.now t) }
{
    match a {
        Value::Text(text) => character_at(alloc, text, t as usize),
        Value::Tuple(members) => member_at(alloc, members, t as usize),
        _ => Ok(None),
    }
}

fn member_at(alloc: Global, members: &List<Value>, t: usize) -> Result<Option<Value>, NoMemory>
    ensures { IfOk result (λ item. item ≡ slice_get members.now t) }
{
    match members.get(t) {
        Some(member) => Ok(Some(try_copy(alloc, member)?)),
        None => Ok(None),
    }
}

fn character_at(alloc: Global, text: &Text, t: usize) -> Result<Option<Value>, NoMemory>
    ensures { IfOk result (λ item. item ≡ slice_get (map spec.character text.now) t) }
{
    match text.get(t) {
        Some(c) => Ok(Some(character(alloc, c)?)),
        None => Ok(None),
    }
}

/// A character as a text of its own.
pub(crate) fn character(alloc: Global, c: char) -> Result<Value, NoMemory>
    ensures { IfOk result (λ v. v ≡ spec.character c) }
{
    Ok(Value::Text(text_from(alloc, &[c])?))
}

/// Each character as a text of its own.
fn character_values(alloc: Global, characters: &[char]) -> Result<List<Value>, NoMemory>
    ensures { IfOk result (λ values. values ≡ map spec.character characters.now) }
{
    let mut values = List::new(alloc);
    for c in characters {
        values.add(character(alloc, *c)?)?;
    }
    Ok(values)
}

/// The characters of a text, in order.
pub(crate) fn characters(alloc: Global, text: &Text) -> Result<Vec<char>, NoMemory>
    ensures { IfOk result (λ characters. characters.items ≡ text.now) }
{
    Ok(text.as_str().chars().collect(alloc)?)
}

/// The text of these characters.
pub(crate) fn text_from(alloc: Global, characters: &[char]) -> Result<Text, NoMemory>
    ensures { IfOk result (λ text. text ≡ characters.now) }
{
    let text = spelled(alloc, characters)?;
    Text::from_string(alloc, text)
}

fn spelled(alloc: Global, characters: &[char]) -> Result<String, NoMemory>
    ensures { IfOk result (λ text. string_bytes text ≡ encode_utf8_all characters.now) }
{
    let mut text = String::new(alloc);
    for c in characters {
        text.push(*c)?;
    }
    Ok(text)
}
