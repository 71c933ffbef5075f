//! What a name gives where it is read (Python Language Reference, section 4.2.2).
ghost use Rattle.std.specs.Prelude.{◌≡◌, slice_get};
ghost use Rattle.pyd_meaning.specs.Evaluation.{settled};
ghost use Rattle.pyd_meaning.specs.Reference as meaning;
ghost use Rattle.pyd_meaning.specs.Setting as place;
ghost use Rattle.pyd_eval.specs.Given.{seen};
ghost use Rattle.pyd_eval.specs.Frames.{setting, names_of, flat};

use crate::activation::Activation;
use crate::got::Got;
use pyd_scope::Use;
use pyd_value::{Fault, Kind, Text, Value};

/// The value of a name, or the exception where it isn't bound.
pub(crate) fn read<'p: 'a, 'a>(
    on: &Activation<'p>,
    name: &Text,
    line: u32,
    slots: &'a [Option<Value>],
) -> Result<Got<'a>, Fault>
    ensures { meaning.read (setting on.now) name.now (place.place_of line)
        (names_of on.now slots.now) ≡ settled (seen result) }
{
    match on.program.resolve(on.routine, name) {
        Use::Slot(at) => read_slot(on, at, line, slots),
        Use::Constant(v) => Ok(Got::Lent(v)),
        Use::Routine(_) | Use::Builtin(_) | Use::Imported | Use::Variable | Use::Unbound => {
            Err(Fault::Raised(Kind::NameError, line))
        }
    }
}

fn read_slot<'a>(
    on: &Activation<'_>,
    at: u32,
    line: u32,
    slots: &'a [Option<Value>],
) -> Result<Got<'a>, Fault>
    ensures { place.value_or (flat (slice_get slots.now at)) (place.unbound_local on.now.routine)
        (place.place_of line) ≡ settled (seen result) }
{
    match slots.get(at as usize) {
        Some(Some(v)) => Ok(Got::Lent(v)),
        Some(None) | None => Err(Fault::Raised(unbound_local(on.routine), line)),
    }
}

/// What a local that isn't bound raises.
fn unbound_local(routine: u32) -> Kind
    ensures { result ≡ place.unbound_local routine }
{
    if routine == 0 {
        Kind::NameError
    } else {
        Kind::UnboundLocalError
    }
}
