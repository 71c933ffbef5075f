//! The nodes of statements (Python Language Reference, sections 7 and 8).
ghost use Rattle.std.specs.Prelude.{◌≡◌, IfOk};
ghost use Rattle.pyd_translate.specs.Drafts.{Makes};
ghost use Rattle.pyd_translate.specs.Flows as flows;
ghost use Rattle.pyd_translate.specs.Flows.{Flows, header_at};
ghost use Rattle.pyd_translate.specs.Statements as spec;

use crate::assertions::build_assert;
use crate::assignments::{build_assign, build_augmented};
use crate::composite::{Composite, build_composite};
use crate::draft::Draft;
use crate::expressions::build;
use crate::flow::{Exit, Flow};
use crate::spot::Spot;
use pyd_ir::Arg;
use pyd_scope::{Jump, least_jump};
use pyd_tree::{Arm, Expr, Stmt, What};
use pyd_value::{NoMemory, Value};

/// Whether a statement may leave its block early: by a `return` in it, or by a `break` or `continue` of
/// a loop round it.
pub(crate) fn may_leave(stmt: &Stmt) -> bool
    ensures { result ≡ spec.may_leave stmt.now }
{
    least_jump(Jump::Return, stmt).is_some() || least_jump(Jump::Break, stmt).is_some()
}

/// The nodes of a statement. A loop has made no turn.
pub(crate) fn build_statement(
    at: &Spot<'_>,
    what: &What,
    env: &mut Vec<Arg>,
    draft: &mut Draft,
) -> Result<Flow, NoMemory>
    ensures { IfOk result (λ flow. Flows draft.old at.now.rest.now
        (flows.statement_at at.now what.now env.old.items) draft.new flow env.new.items) }
{
    match what {
        What::Expr(e) => build_expression(at, e, env.as_slice(), draft),
        What::Assign(targets, e) => Ok(going(build_assign(at, targets, e, env, draft)?)),
        What::Aug(name, op, e) => Ok(going(build_augmented(at, name, *op, e, env, draft)?)),
        What::If(arms, _otherwise) => build_if(at, arms.as_slice(), env, draft),
        What::While(test, _body) => build_headed(at, Composite::While(0), test, env, draft),
        What::For(_targets, e, _body) => build_headed(at, Composite::For(0), e, env, draft),
        What::Return(e) => build_return(at, e, env.as_slice(), draft),
        What::Break => Ok(Flow::Left(Exit::Break)),
        What::Continue => Ok(Flow::Left(Exit::Continue)),
        What::Pass => Ok(Flow::Left(Exit::Normal)),
        What::Assert(test, message) => {
            Ok(going(build_assert(at, test, message, env.as_slice(), draft)?))
        }
    }
}

/// Whether a statement goes on: behind a Stop it ends without a value.
fn going(goes: bool) -> Flow
    ensures { result ≡ flows.going goes }
{
    if goes {
        Flow::Left(Exit::Normal)
    } else {
        Flow::Ended(Arg::Unbound)
    }
}

/// The first expression of a statement and its value, or none behind a Stop.
pub fn build_header(
    at: &Spot<'_>,
    e: &Expr,
    env: &[Arg],
    draft: &mut Draft,
) -> Result<Option<Arg>, NoMemory>
    ensures { IfOk result (λ got.
        Makes draft.old (header_at at.now e.now env.now) draft.new got) }
{
    build(&at.context(env), at.point.expression, e, draft)
}

/// An expression whose value isn't used.
fn build_expression(
    at: &Spot<'_>,
    e: &Expr,
    env: &[Arg],
    draft: &mut Draft,
) -> Result<Flow, NoMemory>
    ensures { IfOk result (λ flow. Flows draft.old at.now.rest.now
        (flows.expression_at at.now e.now env.now) draft.new flow env.now) }
{
    match build_header(at, e, env, draft)? {
        Some(value) => {
            drop(value);
            Ok(Flow::Left(Exit::Normal))
        }
        None => Ok(Flow::Ended(Arg::Unbound)),
    }
}

/// A `return`, which drops the rest.
fn build_return(
    at: &Spot<'_>,
    e: &Option<Expr>,
    env: &[Arg],
    draft: &mut Draft,
) -> Result<Flow, NoMemory>
    ensures { IfOk result (λ flow. Flows draft.old at.now.rest.now
        (flows.returned_at at.now e.now env.now) draft.new flow env.now) }
{
    match e {
        Some(e) => match build_header(at, e, env, draft)? {
            Some(value) => Ok(Flow::Ended(value)),
            None => Ok(Flow::Ended(Arg::Unbound)),
        },
        None => Ok(Flow::Ended(Arg::Known(Value::None))),
    }
}

/// An `if` with the test of its first arm, in that arm's line.
fn build_if(
    at: &Spot<'_>,
    arms: &[Arm],
    env: &mut Vec<Arg>,
    draft: &mut Draft,
) -> Result<Flow, NoMemory>
    ensures { IfOk result (λ flow. Flows draft.old at.now.rest.now
        (flows.if_at at.now arms.now env.old.items) draft.new flow env.new.items) }
{
    let Some((arm, _others)) = arms.split_first() else {
        let never = Arg::Known(Value::Bool(false));
        return build_composite(at, Composite::Cond(0), never, env, draft);
    };
    let header = at.in_line(arm.line);
    build_headed(&header, Composite::Cond(0), &arm.test, env, draft)
}

/// The header of a compound statement, and its composite.
fn build_headed(
    at: &Spot<'_>,
    composite: Composite,
    e: &Expr,
    env: &mut Vec<Arg>,
    draft: &mut Draft,
) -> Result<Flow, NoMemory>
    ensures { IfOk result (λ flow. Flows draft.old at.now.rest.now
        (flows.headed_at at.now composite e.now env.old.items) draft.new flow env.new.items) }
{
    match build_header(at, e, env.as_slice(), draft)? {
        Some(control) => build_composite(at, composite, control, env, draft),
        None => Ok(Flow::Ended(Arg::Unbound)),
    }
}
