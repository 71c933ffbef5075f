//! Copies of values.
ghost use Rattle.std.specs.Prelude.{◌≡◌, IfOk};

use crate::{List, NoMemory, Value};
use std::alloc::Global;

/// The same value, with the same kinds at every depth. Both share the bytes of texts and the members
/// of tuples, which aren't walked.
pub fn try_copy(_alloc: Global, a: &Value) -> Result<Value, NoMemory>
    ensures { IfOk result (λ copy. copy ≡ a.now) }
{
    match a {
        Value::Int(n) => Ok(Value::Int(*n)),
        Value::Bool(b) => Ok(Value::Bool(*b)),
        Value::Text(text) => Ok(Value::Text(text.try_clone()?)),
        Value::Tuple(members) => Ok(Value::Tuple(members.try_clone()?)),
        Value::None => Ok(Value::None),
    }
}

/// Copies of all values, in order, such as those of a part of a tuple.
pub fn try_copy_members(alloc: Global, members: &[Value]) -> Result<List<Value>, NoMemory>
    ensures { IfOk result (λ copies. copies ≡ members.now) }
{
    let mut copies = List::new(alloc);
    for member in members {
        copies.add(try_copy(alloc, member)?)?;
    }
    Ok(copies)
}
