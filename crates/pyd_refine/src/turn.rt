//! A loop once the value of its test, or its iterable, is there (Python Language Reference, sections 8.2
//! and 8.3).
ghost use Rattle.std.specs.Prelude.{◌≡◌, ◌<◌, Some, true, IfOk};
ghost use Rattle.pyd_meaning.specs.declared.limits.Limits.{Limits as ALimits};
ghost use Rattle.pyd_meaning.specs.Module.{setting_at};
ghost use Rattle.pyd_meaning.specs.Statement as statement;
ghost use Rattle.pyd_translate.specs.Drafts.{Makes};
ghost use Rattle.pyd_translate.specs.Flows.{file_in};
ghost use Rattle.pyd_translate.specs.Statements.{done};
ghost use Rattle.pyd_refine.specs.Drafts as spec;
ghost use Rattle.pyd_refine.specs.Drafts.{Ends};

use crate::item::{Found, item_at_turn};
use crate::stop::{stop, stop_by};
use pyd_ir::{Arg, Frame};
use pyd_meaning::Limits;
use pyd_scope::Use;
use pyd_translate::{Draft, Setting, Start, bind_targets, build_start, framed};
use pyd_tree::{Expr, Stmt, Targets, What};
use pyd_value::{Builtin, Fault, Kind, Limit, NoMemory, Value, truth};

/// A loop after so many turns, in its header's line, and what goes on behind it.
#[derive(Clone, Copy)]
pub(crate) struct Round<'a> {
    pub limits: Limits,
    pub stmt: u32,
    pub turns: u64,
    pub rest: &'a [Frame],
}

impl Round<'_> {
    /// How many turns the loop has left.
    fn left(&self) -> u64
        ensures { result ≡ spec.left_of self.now }
    {
        self.limits.turns.saturating_sub(self.turns)
    }
}

/// A loop with its control and that control's value; what is no loop is over.
pub(crate) fn refine_loop(
    at: &Setting<'_>,
    round: &Round<'_>,
    control: &Arg,
    v: &Value,
    env: &mut Vec<Arg>,
    draft: &mut Draft,
) -> Result<Arg, NoMemory>
    ensures { IfOk result (λ u. Ends draft.old
        (spec.loop_in at.now round.now control.now v.now env.old.items)
        env.old.items draft.new env.new.items u) }
{
    let here = at.passage(round.stmt);
    match here.stmts.first() {
        Some(stmt) => refine_stmt(at, round, stmt, control, v, env, draft),
        None => build_start(at, &Start::Rest, round.rest, env, draft),
    }
}

/// The same, for the statement that has the loop's number.
fn refine_stmt(
    at: &Setting<'_>,
    round: &Round<'_>,
    stmt: &Stmt,
    control: &Arg,
    v: &Value,
    env: &mut Vec<Arg>,
    draft: &mut Draft,
) -> Result<Arg, NoMemory>
    ensures { IfOk result (λ u. Ends draft.old
        (spec.statement_in at.now round.now stmt.now control.now v.now env.old.items)
        env.old.items draft.new env.new.items u) }
{
    match &stmt.what {
        What::While(_, _) => refine_while(at, round, stmt.line, truth(v), env, draft),
        What::For(targets, e, _) => {
            refine_for(at, round, stmt.line, targets, e, control, v, env, draft)
        }
        What::If(_, _) => build_start(at, &Start::Rest, round.rest, env, draft),
        What::Expr(_)
        | What::Assign(_, _)
        | What::Aug(_, _, _)
        | What::Return(_)
        | What::Break
        | What::Continue
        | What::Pass
        | What::Assert(_, _) => build_start(at, &Start::Rest, round.rest, env, draft),
    }
}

/// A `while`: where its test was false its rest, else a turn.
fn refine_while(
    at: &Setting<'_>,
    round: &Round<'_>,
    line: u32,
    truth: bool,
    env: &mut Vec<Arg>,
    draft: &mut Draft,
) -> Result<Arg, NoMemory>
    ensures { IfOk result (λ u. Ends draft.old
        (spec.while_in at.now round.now line truth env.old.items)
        env.old.items draft.new env.new.items u) }
{
    if truth {
        while_turn(at, round, line, env, draft)
    } else {
        build_start(at, &Start::Rest, round.rest, env, draft)
    }
}

/// A turn of a `while`, unless none is left.
fn while_turn(
    at: &Setting<'_>,
    round: &Round<'_>,
    line: u32,
    env: &mut Vec<Arg>,
    draft: &mut Draft,
) -> Result<Arg, NoMemory>
    ensures { IfOk result (λ u. Ends draft.old
        (spec.while_in at.now round.now line true env.old.items)
        env.old.items draft.new env.new.items u) }
{
    if round.left() == 0 {
        return stop(at, line, Fault::Limit(Limit::Turn, line), draft);
    }
    let over = Arg::Known(Value::None);
    let made = go_on(at, round, &over, env, draft);
    drop(over);
    made
}

/// A `for` over what its iterable is: a Stop by TypeError where that is no tuple or text, nor a range,
/// the rest where no item is there, else a turn with the item.
fn refine_for(
    at: &Setting<'_>,
    round: &Round<'_>,
    line: u32,
    targets: &Targets,
    e: &Expr,
    control: &Arg,
    v: &Value,
    env: &mut Vec<Arg>,
    draft: &mut Draft,
) -> Result<Arg, NoMemory>
    ensures { IfOk result (λ u. Ends draft.old
        (spec.for_in at.now round.now line targets.now e.now control.now v.now env.old.items)
        env.old.items draft.new env.new.items u) }
{
    match item_at_turn(at.alloc, calls_range(at, e), v, round.turns)? {
        Found::Item(item) => item_turn(at, round, line, targets, item, control, env, draft),
        Found::End => build_start(at, &Start::Rest, round.rest, env, draft),
        Found::Nothing => stop_by(at, line, Kind::TypeError, draft),
    }
}

/// Whether an expression is a call of `range`.
fn calls_range(at: &Setting<'_>, e: &Expr) -> bool
    ensures { (limits : ALimits) → result ≡ statement.calls_range
        (setting_at (file_in at.now) limits at.now.routine at.now.depth) e.now }
{
    match e {
        Expr::Call(name, _) => {
            matches!(
                at.program.resolve(at.routine, name),
                Use::Builtin(Builtin::Range)
            )
        }
        Expr::Lit(_)
        | Expr::Name(_)
        | Expr::Tuple(_)
        | Expr::Unary(_, _)
        | Expr::Chain(_, _)
        | Expr::Power(_, _)
        | Expr::And(_)
        | Expr::Or(_)
        | Expr::Compare(_, _)
        | Expr::If(_, _, _)
        | Expr::Suffixed(_, _) => false,
    }
}

/// A turn of a `for` with an item, which its targets take unless no turn is left.
fn item_turn(
    at: &Setting<'_>,
    round: &Round<'_>,
    line: u32,
    targets: &Targets,
    item: Value,
    control: &Arg,
    env: &mut Vec<Arg>,
    draft: &mut Draft,
) -> Result<Arg, NoMemory>
    ensures { IfOk result (λ u. Ends draft.old
        (spec.item_in at.now round.now line targets.now item control.now env.old.items)
        env.old.items draft.new env.new.items u) }
{
    if round.left() == 0 {
        drop(item);
        return stop(at, line, Fault::Limit(Limit::Turn, line), draft);
    }
    if bind_targets(at, line, targets, Arg::Known(item), env, draft)? {
        go_on(at, round, control, env, draft)
    } else {
        Ok(Arg::Unbound)
    }
}

/// The suite of a loop, and then its next turn before the rest.
fn go_on(
    at: &Setting<'_>,
    round: &Round<'_>,
    over: &Arg,
    env: &mut Vec<Arg>,
    draft: &mut Draft,
) -> Result<Arg, NoMemory>
    requires { round.now.turns < round.now.limits.turns }
    ensures { IfOk result (λ u. Makes draft.old
        (spec.turn_in at.now round.now over.now env.old.items) draft.new
        (Some (done env.new.items u))) }
{
    let again = Frame::Again {
        stmt: round.stmt,
        turns: round.turns + 1,
        over: over.try_copy(at.alloc)?,
    };
    let frames = framed(at.alloc, again, round.rest)?;
    let start = Start::LoopBody(round.stmt);
    build_start(at, &start, frames.as_slice(), env, draft)
}
