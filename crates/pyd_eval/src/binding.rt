//! Values bound to names (Python Language Reference, section 7.2).
ghost use Rattle.std.specs.Prelude.{◌≡◌, ◌∷◌, [], length, true, IfOk, Some};
ghost use Rattle.pyd_meaning.specs.Assignment as meaning;
ghost use Rattle.pyd_meaning.specs.Evaluation.{settled};
ghost use Rattle.pyd_meaning.specs.Names as named;
ghost use Rattle.pyd_meaning.specs.Setting.{place_of};
ghost use Rattle.pyd_eval.specs.Frames.{names_of, Holds};
ghost use Rattle.pyd_eval.specs.Bound.{bound};

use crate::activation::Activation;
use crate::slots::put;
use pyd_ops::items;
use pyd_scope::Use;
use pyd_tree::Targets;
use pyd_value::{Fault, Kind, NoMemory, Text, Value, try_copy};

/// Binds a name that has a slot.
pub(crate) fn bind(on: &Activation<'_>, slots: &mut [Option<Value>], name: &Text, v: Value)
    requires { Holds on.now slots.old (name.now ∷ []) }
    ensures { names_of on.now slots.new ≡ named.bind (names_of on.now slots.old) name.now v }
{
    if let Use::Slot(at) = on.program.resolve(on.routine, name) {
        put(slots, at as usize, v);
    } else {
        drop(v);
    }
}

/// Binds targets to a value: one target to the value itself, several to its items, each to one.
/// Where it has none, or not as many, no target is bound.
pub(crate) fn assign(
    on: &Activation<'_>,
    slots: &mut [Option<Value>],
    targets: &Targets,
    v: Value,
    line: u32,
) -> Result<Result<(), Fault>, NoMemory>
    requires { Holds on.now slots.old targets.now.names }
    ensures { IfOk result (λ done.
        meaning.assign targets.now v (place_of line) (names_of on.now slots.old)
        ≡ settled (bound (names_of on.now slots.new) done)) }
{
    if targets.tuple {
        return unpack(on, slots, targets.names.as_slice(), v, line);
    }
    let names = targets.names.as_slice();
    if names.len() != 1 {
        drop(v);
        return Ok(Err(Fault::Raised(Kind::ValueError, line)));
    }
    bind(on, slots, &names[0], v);
    Ok(Ok(()))
}

/// Binds each name to an item of a value.
fn unpack(
    on: &Activation<'_>,
    slots: &mut [Option<Value>],
    names: &[Text],
    v: Value,
    line: u32,
) -> Result<Result<(), Fault>, NoMemory>
    requires { Holds on.now slots.old names.now }
    ensures { IfOk result (λ done.
        meaning.assign_values (meaning.values_for true v) names.now (place_of line)
        (names_of on.now slots.old)
        ≡ settled (bound (names_of on.now slots.new) done)) }
{
    let found = items(on.alloc, &v);
    drop(v);
    match found? {
        None => Ok(Err(Fault::Raised(Kind::TypeError, line))),
        Some(values) => {
            if values.len() != names.len() {
                return Ok(Err(Fault::Raised(Kind::ValueError, line)));
            }
            bind_all(on, slots, names, values.as_slice())?;
            Ok(Ok(()))
        }
    }
}

/// Binds names to as many values, from the left.
fn bind_all(
    on: &Activation<'_>,
    slots: &mut [Option<Value>],
    names: &[Text],
    values: &[Value],
) -> Result<(), NoMemory>
    requires holds { Holds on.now slots.old names.now }
    requires even { length names.now ≡ length values.now }
    ensures { IfOk result (λ done.
        named.bind_all (names_of on.now slots.old) names.now values.now
        ≡ Some (names_of on.now slots.new)) }
{
    for (at, name) in names.iter().enumerate() {
        let value = try_copy(on.alloc, &values[at])?;
        bind(on, slots, name, value);
    }
    Ok(())
}
