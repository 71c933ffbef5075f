//! Composites of statements.
ghost use Rattle.std.specs.Prelude.{◌≡◌, Some, IfOk};
ghost use Rattle.pyd_translate.specs.Drafts.{Makes};
ghost use Rattle.pyd_translate.specs.Flows.{Flows, composite_at, context_at, last_at, work_of};
ghost use Rattle.pyd_translate.specs.Making as spec;
ghost use Rattle.pyd_translate.specs.Statements.{done};

use crate::arguments::copies;
use crate::draft::{Draft, emit};
use crate::env::take_ports;
use crate::flow::{Exit, Flow};
use crate::frames::framed;
use crate::spot::Spot;
use pyd_ir::{Arg, Frame, Rest, Work};
use pyd_value::{List, NoMemory};

/// A composite: an `if` from an arm on, a `while` or a `for` after so many turns.
#[derive(Clone, Copy)]
pub enum Composite {
    Cond(u32),
    While(u64),
    For(u64),
}

/// A composite of a statement, by its test or iterable. One that may leave its block early takes the
/// rest with it.
pub(crate) fn build_composite(
    at: &Spot<'_>,
    composite: Composite,
    control: Arg,
    env: &mut Vec<Arg>,
    draft: &mut Draft,
) -> Result<Flow, NoMemory>
    ensures { IfOk result (λ flow. Flows draft.old at.now.rest.now
        (composite_at at.now composite control env.old.items) draft.new flow env.new.items) }
{
    if at.early {
        match framed(at.setting.alloc, Frame::After(at.point.statement), at.rest) {
            Ok(rest) => {
                let value = build_last(at, composite, control, rest, env, draft)?;
                Ok(Flow::Ended(value))
            }
            Err(NoMemory) => {
                drop(control);
                Err(NoMemory)
            }
        }
    } else {
        let rest = List::new(at.setting.alloc);
        let id = emit_composite(at, composite, control, rest, env.as_slice(), draft)?;
        drop(take_ports(&at.setting, id, env)?);
        Ok(Flow::Left(Exit::Normal))
    }
}

/// A composite that takes a rest with it: its ports are the slots and the value.
pub fn build_last(
    at: &Spot<'_>,
    composite: Composite,
    control: Arg,
    rest: Rest,
    env: &mut Vec<Arg>,
    draft: &mut Draft,
) -> Result<Arg, NoMemory>
    ensures { IfOk result (λ v. Makes draft.old
        (last_at at.now composite control env.old.items rest) draft.new
        (Some (done env.new.items v))) }
{
    let id = emit_composite(at, composite, control, rest, env.as_slice(), draft)?;
    take_ports(&at.setting, id, env)
}

/// The node of a composite.
fn emit_composite(
    at: &Spot<'_>,
    composite: Composite,
    control: Arg,
    rest: Rest,
    env: &[Arg],
    draft: &mut Draft,
) -> Result<u64, NoMemory>
    ensures { IfOk result (λ id. Makes draft.old (spec.emit (context_at at.now env.now)
        (work_of composite at.now.point.statement control env.now rest)) draft.new (Some id)) }
{
    match copies(at.setting.alloc, env) {
        Ok(slots) => {
            let work = work(composite, at.point.statement, control, rest, slots);
            emit(&at.context(env), work, draft)
        }
        Err(NoMemory) => {
            drop(control);
            Err(NoMemory)
        }
    }
}

/// The work of a composite for a statement.
fn work(composite: Composite, stmt: u32, control: Arg, rest: Rest, env: List<Arg>) -> Work
    ensures { result ≡ work_of composite stmt control env rest }
{
    match composite {
        Composite::Cond(arm) => Work::Cond {
            test: control,
            stmt,
            arm,
            rest,
            env,
        },
        Composite::While(turns) => Work::While {
            test: control,
            stmt,
            turns,
            rest,
            env,
        },
        Composite::For(turns) => Work::For {
            over: control,
            stmt,
            turns,
            rest,
            env,
        },
    }
}
