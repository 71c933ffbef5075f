//! The caller that the page of `pyd_value` on calling shows.
ghost use Rattle.std.specs.Prelude.{◌≡◌, [], ◌∷◌, IfOk};
ghost use Rattle.pyd_value.specs.declared.value.Value.{Tuple};

use pyd_value::{List, NoMemory, Value, try_copy};
use std::alloc::Global;

/// The tuple of two values.
pub fn pair(alloc: Global, a: &Value, b: &Value) -> Result<Value, NoMemory>
    ensures { IfOk result (λ tuple. tuple ≡ Tuple (a.now ∷ b.now ∷ [])) }
{
    let mut members = List::new(alloc);
    members.add(try_copy(alloc, a)?)?;
    members.add(try_copy(alloc, b)?)?;
    Ok(Value::Tuple(members))
}
