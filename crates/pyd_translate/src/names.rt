//! Names as operands (Python Language Reference, section 4.2.2).
ghost use Rattle.std.specs.Prelude.{◌≡◌, IfOk, slice_get};
ghost use Rattle.pyd_ir.specs.declared.arg.Arg.TheVariants as arg;
ghost use Rattle.pyd_meaning.specs.Setting as meaning;
ghost use Rattle.pyd_translate.specs.Drafts.{Makes, context_of, file_of, or_unbound};
ghost use Rattle.pyd_translate.specs.Expressions as expressions;
ghost use Rattle.pyd_translate.specs.Slots as spec;

use crate::context::Context;
use crate::draft::{Draft, emit_value, stop_by};
use pyd_ir::{Arg, Ref, Work};
use pyd_scope::Use;
use pyd_value::{Kind, NoMemory, Text, try_copy};

/// What a name gives, or none behind a Stop.
pub(crate) fn name_operand(
    at: &Context<'_>,
    name: &Text,
    draft: &mut Draft,
) -> Result<Option<Arg>, NoMemory>
    ensures { IfOk result (λ got. Makes draft.old
        (expressions.name_operand (file_of at.now) name.now (context_of at.now)) draft.new got) }
{
    match at.program.resolve(at.routine, name) {
        Use::Slot(slot) => slot_operand(at, slot, draft),
        Use::Constant(v) => Ok(Some(Arg::Known(try_copy(at.alloc, v)?))),
        Use::Routine(_) | Use::Builtin(_) | Use::Imported | Use::Variable | Use::Unbound => {
            stop_by(at, Kind::NameError, draft)?;
            Ok(None)
        }
    }
}

/// What a slot gives; one that has no argument is unbound.
fn slot_operand(at: &Context<'_>, slot: u32, draft: &mut Draft) -> Result<Option<Arg>, NoMemory>
    ensures { IfOk result (λ got. Makes draft.old
        (spec.operand (context_of at.now) (or_unbound (slice_get at.now.env.now slot)))
        draft.new got) }
{
    match at.env.get(slot as usize) {
        Some(a) => operand(at, a, draft),
        None => unbound(at, draft),
    }
}

/// A local as an operand: a slot port is read, and what is surely unbound stops.
fn operand(at: &Context<'_>, a: &Arg, draft: &mut Draft) -> Result<Option<Arg>, NoMemory>
    ensures { IfOk result (λ got. Makes draft.old
        (spec.operand (context_of at.now) a.now) draft.new got) }
{
    match a {
        Arg::Known(v) => Ok(Some(Arg::Known(try_copy(at.alloc, v)?))),
        Arg::From(port) => Ok(Some(Arg::From(*port))),
        Arg::Slot(port) => read(at, *port, draft),
        Arg::Unbound => unbound(at, draft),
    }
}

fn read(at: &Context<'_>, port: Ref, draft: &mut Draft) -> Result<Option<Arg>, NoMemory>
    ensures { IfOk result (λ got. Makes draft.old
        (spec.operand (context_of at.now) (arg.Slot port)) draft.new got) }
{
    let work = Work::Read {
        arg: Arg::Slot(port),
        kind: unbound_local(at.routine),
    };
    Ok(Some(emit_value(at, work, draft)?))
}

fn unbound(at: &Context<'_>, draft: &mut Draft) -> Result<Option<Arg>, NoMemory>
    ensures { IfOk result (λ got. Makes draft.old
        (spec.operand (context_of at.now) arg.Unbound) draft.new got) }
{
    stop_by(at, unbound_local(at.routine), draft)?;
    Ok(None)
}

/// What a local that isn't bound raises.
fn unbound_local(routine: u32) -> Kind
    ensures { result ≡ meaning.unbound_local routine }
{
    if routine == 0 {
        Kind::NameError
    } else {
        Kind::UnboundLocalError
    }
}
