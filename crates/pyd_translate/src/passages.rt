//! The nodes of a block, and of what goes on behind it.
ghost use Rattle.std.specs.Prelude.{◌≡◌, ◌∷◌, Some, IfOk};
ghost use Rattle.pyd_scope.specs.Numbering.{contents};
ghost use Rattle.pyd_scope.specs.Passages.{passage_at};
ghost use Rattle.pyd_translate.specs.declared.composite.Composite.TheVariants.{For};
ghost use Rattle.pyd_translate.specs.Drafts.{Makes};
ghost use Rattle.pyd_translate.specs.Flows as flows;
ghost use Rattle.pyd_translate.specs.Flows.{Flows, Goes, StandsIn, exit_of, file_in, leaving, passage_of, point_of};
ghost use Rattle.pyd_translate.specs.Rests as spec;
ghost use Rattle.pyd_translate.specs.Statements.{done};

use crate::composite::{Composite, build_last};
use crate::draft::Draft;
use crate::flow::{Exit, Flow};
use crate::frames::frames_of;
use crate::setting::{Passage, Setting};
use crate::spot::Spot;
use crate::statements::{build_header, build_statement, may_leave};
use pyd_ir::{Arg, Frame};
use pyd_tree::{Expr, What};
use pyd_value::{NoMemory, Value};

/// Statements of one block that stand in the routine, and then a rest; and the value that they end with.
pub(crate) fn build_block<'a>(
    at: &Setting<'a>,
    here: Passage<'a>,
    rest: &[Frame],
    env: &mut Vec<Arg>,
    draft: &mut Draft,
) -> Result<Arg, NoMemory>
    requires { StandsIn at.now (contents here.stmts) (point_of here.point) }
    ensures { IfOk result (λ v. Makes draft.old
        (spec.block_unfolds (file_in at.now) at.now.routine at.now.depth (passage_of here.entry)
        rest.now env.old.items) draft.new (Some (done env.new.items v))) }
{
    let flow = build_passage(at, here, rest, env, draft)?;
    match flow {
        Flow::Left(exit) => build_rest(at, rest, exit, env, draft),
        Flow::Ended(value) => Ok(value),
    }
}

/// Statements of one block that stand in the routine.
fn build_passage<'a>(
    at: &Setting<'a>,
    first: Passage<'a>,
    rest: &[Frame],
    env: &mut Vec<Arg>,
    draft: &mut Draft,
) -> Result<Flow, NoMemory>
    requires { StandsIn at.now (contents first.stmts) (point_of first.point) }
    ensures { IfOk result (λ flow. Flows draft.old rest.now
        (λ sequel. spec.passage_unfolds (file_in at.now) at.now.routine at.now.depth
        (passage_of first.entry) rest.now (leaving sequel) env.old.items)
        draft.new flow env.new.items) }
{
    let mut here = first;
    while let Some(stmt) = here.stmts.first() {
        let spot = Spot {
            setting: *at,
            line: stmt.line,
            point: here.point,
            early: may_leave(stmt),
            rest,
        };
        let flow = build_statement(&spot, &stmt.what, env, draft)?;
        match flow {
            Flow::Left(exit) => match exit {
                Exit::Normal => here = at.behind(here.point.statement),
                Exit::Break => return Ok(Flow::Left(Exit::Break)),
                Exit::Continue => return Ok(Flow::Left(Exit::Continue)),
            },
            Flow::Ended(value) => return Ok(Flow::Ended(value)),
        }
    }
    Ok(Flow::Left(Exit::Normal))
}

/// A rest, by the way in which the block before it was left; and the value that it ends with.
fn build_rest(
    at: &Setting<'_>,
    rest: &[Frame],
    exit: Exit,
    env: &mut Vec<Arg>,
    draft: &mut Draft,
) -> Result<Arg, NoMemory>
    ensures { IfOk result (λ v. Makes draft.old
        (spec.rest_unfolds (file_in at.now) at.now.routine at.now.depth rest.now (exit_of exit)
        env.old.items) draft.new (Some (done env.new.items v))) }
{
    let mut left = rest;
    let mut exit = exit;
    while let Some((frame, others)) = left.split_first() {
        let flow = build_frame(at, frame, others, exit, env, draft)?;
        match flow {
            Flow::Left(next) => exit = next,
            Flow::Ended(value) => return Ok(value),
        }
        left = others;
    }
    Ok(Arg::Known(Value::None))
}

/// The first frame of a rest: `continue` drops what stands before the nearest loop, `break` that loop
/// too.
fn build_frame(
    at: &Setting<'_>,
    frame: &Frame,
    others: &[Frame],
    exit: Exit,
    env: &mut Vec<Arg>,
    draft: &mut Draft,
) -> Result<Flow, NoMemory>
    ensures { IfOk result (λ flow. Goes draft.old
        (spec.rest_unfolds (file_in at.now) at.now.routine at.now.depth
        (frame.now ∷ others.now) (exit_of exit) env.old.items) draft.new
        (spec.rest_unfolds (file_in at.now) at.now.routine at.now.depth others.now)
        flow env.new.items) }
{
    match frame {
        Frame::After(stmt) => match exit {
            Exit::Normal => build_passage(at, at.behind(*stmt), others, env, draft),
            Exit::Break => Ok(Flow::Left(Exit::Break)),
            Exit::Continue => Ok(Flow::Left(Exit::Continue)),
        },
        Frame::Again { stmt, turns, over } => match exit {
            Exit::Normal | Exit::Continue => {
                build_again(at, *stmt, *turns, over, others, env, draft)
            }
            Exit::Break => Ok(Flow::Left(Exit::Normal)),
        },
    }
}

/// A loop after so many turns, which takes the rest with it; what is no loop is over.
fn build_again(
    at: &Setting<'_>,
    stmt: u32,
    turns: u64,
    over: &Arg,
    rest: &[Frame],
    env: &mut Vec<Arg>,
    draft: &mut Draft,
) -> Result<Flow, NoMemory>
    ensures { IfOk result (λ flow. Flows draft.old rest.now
        (λ sequel. spec.again_first (file_in at.now) at.now.routine at.now.depth
        (passage_at (file_in at.now) at.now.routine stmt) turns over.now rest.now
        sequel.next env.old.items) draft.new flow env.new.items) }
{
    let here = at.passage(stmt);
    let Some(stmt) = here.stmts.first() else {
        return Ok(Flow::Left(Exit::Normal));
    };
    let spot = Spot {
        setting: *at,
        line: stmt.line,
        point: here.point,
        early: true,
        rest,
    };
    match &stmt.what {
        What::While(test, _body) => Ok(Flow::Ended(again_while(&spot, test, turns, env, draft)?)),
        What::For(_targets, _e, _body) => Ok(Flow::Ended(again_for(
            &spot, over, turns, env, draft,
        )?)),
        What::Expr(_)
        | What::Assign(_, _)
        | What::Aug(_, _, _)
        | What::If(_, _)
        | What::Return(_)
        | What::Break
        | What::Continue
        | What::Pass
        | What::Assert(_, _) => Ok(Flow::Left(Exit::Normal)),
    }
}

/// The test of a `while` after so many turns, and its composite.
fn again_while(
    at: &Spot<'_>,
    test: &Expr,
    turns: u64,
    env: &mut Vec<Arg>,
    draft: &mut Draft,
) -> Result<Arg, NoMemory>
    ensures { IfOk result (λ v. Makes draft.old
        (flows.again_while_at at.now test.now turns env.old.items) draft.new
        (Some (done env.new.items v))) }
{
    match build_header(at, test, env.as_slice(), draft)? {
        Some(control) => again(at, Composite::While(turns), control, env, draft),
        None => Ok(Arg::Unbound),
    }
}

/// The composite of a `for` after so many turns, over its iterable.
fn again_for(
    at: &Spot<'_>,
    over: &Arg,
    turns: u64,
    env: &mut Vec<Arg>,
    draft: &mut Draft,
) -> Result<Arg, NoMemory>
    ensures { IfOk result (λ v. Makes draft.old
        (flows.last_at at.now (For turns) over.now env.old.items at.now.rest.now) draft.new
        (Some (done env.new.items v))) }
{
    let control = over.try_copy(at.setting.alloc)?;
    again(at, Composite::For(turns), control, env, draft)
}

/// A loop's composite, which takes the rest with it.
fn again(
    at: &Spot<'_>,
    composite: Composite,
    control: Arg,
    env: &mut Vec<Arg>,
    draft: &mut Draft,
) -> Result<Arg, NoMemory>
    ensures { IfOk result (λ v. Makes draft.old
        (flows.last_at at.now composite control env.old.items at.now.rest.now) draft.new
        (Some (done env.new.items v))) }
{
    match frames_of(at.setting.alloc, at.rest) {
        Ok(rest) => build_last(at, composite, control, rest, env, draft),
        Err(NoMemory) => {
            drop(control);
            Err(NoMemory)
        }
    }
}
