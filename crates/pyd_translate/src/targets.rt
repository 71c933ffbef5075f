//! The targets of assignments and of `for` loops (Python Language Reference, section 7.2).
ghost use Rattle.std.specs.Prelude.{◌≡◌, [], ◌∷◌, length, Some, true, false, IfOk, OnOk};
ghost use Rattle.pyd_ir.specs.declared.code.OpCode.TheVariants as code;
ghost use Rattle.pyd_ir.specs.declared.work.Work.TheVariants as work;
ghost use Rattle.pyd_translate.specs.Drafts.{Makes};
ghost use Rattle.pyd_translate.specs.Flows.{Binds, context_in, slots_in};
ghost use Rattle.pyd_translate.specs.Making.{emit};
ghost use Rattle.pyd_translate.specs.Statements as spec;

use crate::arguments::one;
use crate::draft::{Draft, emit, stop_by};
use crate::env::set_slot;
use crate::numbers::{next, number};
use crate::setting::Setting;
use pyd_ir::{Arg, OpCode, Ref, Work};
use pyd_tree::Targets;
use pyd_value::{Kind, NoMemory, Text};

/// Binds targets to an argument, and says whether the statement goes on. One target takes the
/// argument itself, and for a tuple of targets a node unpacks it. Where there is not exactly one target
/// and no tuple, a Stop is made and the slots are the same.
pub fn bind_targets(
    at: &Setting<'_>,
    line: u32,
    targets: &Targets,
    a: Arg,
    env: &mut Vec<Arg>,
    draft: &mut Draft,
) -> Result<bool, NoMemory>
    ensures { IfOk result (λ goes. Binds draft.old
        (spec.bind_targets (slots_in at.now) targets.now.tuple
        targets.now.names (context_in at.now line env.old.items) a)
        draft.new goes env.old.items env.new.items) }
{
    if targets.tuple {
        bind_members(at, line, targets.names.as_slice(), a, env, draft)
    } else {
        bind_single(at, line, targets.names.as_slice(), a, env, draft)
    }
}

/// Binds a single target.
fn bind_single(
    at: &Setting<'_>,
    line: u32,
    names: &[Text],
    a: Arg,
    env: &mut Vec<Arg>,
    draft: &mut Draft,
) -> Result<bool, NoMemory>
    ensures { IfOk result (λ goes. Binds draft.old
        (spec.bind_targets (slots_in at.now) false names.now
        (context_in at.now line env.old.items) a)
        draft.new goes env.old.items env.new.items) }
{
    if names.len() == 1 {
        set_slot(at, env, &names[0], a);
        Ok(true)
    } else {
        drop(a);
        stop_by(&at.context(line, env.as_slice()), Kind::ValueError, draft)?;
        Ok(false)
    }
}

/// Unpacks an argument, and binds each target to its member.
fn bind_members(
    at: &Setting<'_>,
    line: u32,
    names: &[Text],
    a: Arg,
    env: &mut Vec<Arg>,
    draft: &mut Draft,
) -> Result<bool, NoMemory>
    ensures { IfOk result (λ goes. Binds draft.old
        (spec.bind_targets (slots_in at.now) true names.now
        (context_in at.now line env.old.items) a)
        draft.new goes env.old.items env.new.items) }
{
    let id = unpack(at, line, env.as_slice(), names.len(), a, draft)?;
    set_members(at, env, id, names)?;
    Ok(true)
}

/// The node that unpacks an argument into so many members.
fn unpack(
    at: &Setting<'_>,
    line: u32,
    env: &[Arg],
    count: usize,
    a: Arg,
    draft: &mut Draft,
) -> Result<u64, NoMemory>
    ensures { IfOk result (λ id. Makes draft.old
        (emit (context_in at.now line env.now) (work.Op (code.Unpack count) (a ∷ [])))
        draft.new (Some id)) }
{
    let args = one(at.alloc, a)?;
    let op = OpCode::Unpack(number(count)?);
    emit(&at.context(line, env), Work::Op { op, args }, draft)
}

/// Each target takes its member, which is a port of the node that unpacked them.
fn set_members(
    at: &Setting<'_>,
    env: &mut Vec<Arg>,
    id: u64,
    names: &[Text],
) -> Result<(), NoMemory>
    ensures { OnOk result (env.new.items
        ≡ spec.set_members (slots_in at.now) env.old.items id 0 names.now) }
{
    let mut port = 0;
    for name in names {
        set_slot(at, env, name, Arg::From(Ref { node: id, port }));
        port = next(port)?;
    }
    Ok(())
}
