//! Slots of an activation.
ghost use Rattle.std.specs.Prelude.{◌≡◌, ◌<◌, ◌++◌, ◌-◌, length, slice_set, replicate, OnOk, Some, None};

use pyd_value::{NoMemory, Value};

/// Puts a value into a slot.
pub(crate) fn put(slots: &mut [Option<Value>], at: usize, v: Value)
    requires { at < length slots.old }
    ensures { slots.new ≡ slice_set slots.old at (Some v) }
{
    let old = std::mem::replace(&mut slots[at], Some(v));
    drop(old);
}

/// Puts empty slots behind those that are there, up to so many.
pub(crate) fn fill(slots: &mut Vec<Option<Value>>, count: usize) -> Result<(), NoMemory>
    ensures { OnOk result (slots.new.items
        ≡ slots.old.items ++ replicate (count - length slots.old.items) None) }
{
    while slots.len() < count {
        match slots.push(None) {
            Ok(()) => {}
            Err(refused) => {
                drop(refused);
                return Err(NoMemory);
            }
        }
    }
    Ok(())
}
