//! The statements at a start.
ghost use Rattle.std.specs.Prelude.{◌≡◌, take, slice_get, Some, IfOk};
ghost use Rattle.pyd_scope.specs.Numbering.{arms_contents, inside, past, past_expression};
ghost use Rattle.pyd_scope.specs.Passages.{passage_at};
ghost use Rattle.pyd_translate.specs.Drafts.{Makes};
ghost use Rattle.pyd_translate.specs.Flows.{StandsIn, file_in, passage_of, point_of};
ghost use Rattle.pyd_translate.specs.Rests.{block_unfolds};
ghost use Rattle.pyd_translate.specs.Starts as spec;
ghost use Rattle.pyd_translate.specs.Statements.{done};

use crate::draft::Draft;
use crate::passages::build_block;
use crate::setting::{Passage, Point, Setting};
use crate::sides::before;
use crate::{Start, setting};
use pyd_ir::{Arg, Frame};
use pyd_scope::Stmts;
use pyd_tree::{Arm, Block, Expr, What};
use pyd_value::NoMemory;

/// Where a routine begins.
const BEGIN: Point = Point {
    statement: 0,
    expression: 0,
};

/// The nodes of the statements at a start and of a rest behind them, and the value that they end with.
/// A start that names no statement has none.
pub fn build_start(
    at: &Setting<'_>,
    start: &Start,
    rest: &[Frame],
    env: &mut Vec<Arg>,
    draft: &mut Draft,
) -> Result<Arg, NoMemory>
    ensures { IfOk result (λ v. Makes draft.old
        (block_unfolds (file_in at.now) at.now.routine at.now.depth
        (spec.passage (file_in at.now) at.now.routine start.now) rest.now env.old.items)
        draft.new (Some (done env.new.items v))) }
{
    let here = passage(at, start)?;
    build_block(at, here, rest, env, draft)
}

/// The statements at a start.
fn passage<'a>(at: &Setting<'a>, start: &Start) -> Result<Passage<'a>, NoMemory>
    ensures { IfOk result (λ here. passage_of here
        ≡ spec.passage (file_in at.now) at.now.routine start.now) }
{
    match start {
        Start::Body => Ok(Passage {
            stmts: at.program.body(at.routine),
            point: BEGIN,
        }),
        Start::Arm { stmt, arm } => suite_of_arm(at, *stmt, *arm),
        Start::Otherwise(stmt) => suite_of_else(at, *stmt),
        Start::LoopBody(stmt) => suite_of_loop(at, *stmt),
        Start::Rest => Ok(no_passage()),
    }
}

/// No statement.
fn no_passage<'a>() -> Passage<'a>
    ensures { passage_of result ≡ spec.no_passage }
{
    Passage {
        stmts: Stmts::none(),
        point: BEGIN,
    }
}

/// The statements of a suite that begins at a place.
fn suite(block: &Block, point: Point) -> Passage<'_>
    ensures { passage_of result ≡ spec.suite block.now (point_of point) }
{
    Passage {
        stmts: Stmts::of_block(block, 0),
        point,
    }
}

/// The suite of an arm of an `if`.
fn suite_of_arm<'a>(at: &Setting<'a>, stmt: u32, arm: u32) -> Result<Passage<'a>, NoMemory>
    ensures { IfOk result (λ here. passage_of here
        ≡ spec.suite_in (λ c p. spec.suite_of_arm c arm p)
        (passage_at (file_in at.now) at.now.routine stmt)) }
{
    let here = at.passage(stmt);
    match here.stmts.first() {
        Some(first) => match &first.what {
            What::If(arms, _otherwise) => arm_suite(at, arms.as_slice(), arm, here.point),
            What::Expr(_)
            | What::Assign(_, _)
            | What::Aug(_, _, _)
            | What::While(_, _)
            | What::For(_, _, _)
            | What::Return(_)
            | What::Break
            | What::Continue
            | What::Pass
            | What::Assert(_, _) => Ok(no_passage()),
        },
        None => Ok(no_passage()),
    }
}

/// The suite of an arm of an `if` that stands at a place.
fn arm_suite<'a>(
    at: &Setting<'a>,
    arms: &'a [Arm],
    arm: u32,
    point: Point,
) -> Result<Passage<'a>, NoMemory>
    requires { StandsIn at.now (arms_contents arms.now) (inside (point_of point)) }
    ensures { IfOk result (λ here. passage_of here ≡ spec.arm_suite (slice_get arms.now arm)
        (past (arms_contents (take arm arms.now)) (inside (point_of point)))) }
{
    match arms.get(arm as usize) {
        Some(chosen) => {
            let begin = setting::past_arms(at, before(arms, arm), setting::inside(point)?)?;
            Ok(suite(&chosen.body, setting::past_expression(&chosen.test, begin)?))
        }
        None => Ok(no_passage()),
    }
}

/// The suite of an `else`.
fn suite_of_else<'a>(at: &Setting<'a>, stmt: u32) -> Result<Passage<'a>, NoMemory>
    ensures { IfOk result (λ here. passage_of here
        ≡ spec.suite_in spec.suite_of_else (passage_at (file_in at.now) at.now.routine stmt)) }
{
    let here = at.passage(stmt);
    match here.stmts.first() {
        Some(first) => match &first.what {
            What::If(arms, otherwise) => else_suite(at, arms.as_slice(), otherwise, here.point),
            What::Expr(_)
            | What::Assign(_, _)
            | What::Aug(_, _, _)
            | What::While(_, _)
            | What::For(_, _, _)
            | What::Return(_)
            | What::Break
            | What::Continue
            | What::Pass
            | What::Assert(_, _) => Ok(no_passage()),
        },
        None => Ok(no_passage()),
    }
}

/// The suite of an `else` that may be missing, of an `if` that stands at a place.
fn else_suite<'a>(
    at: &Setting<'a>,
    arms: &'a [Arm],
    otherwise: &'a Option<Block>,
    point: Point,
) -> Result<Passage<'a>, NoMemory>
    requires { StandsIn at.now (arms_contents arms.now) (inside (point_of point)) }
    ensures { IfOk result (λ here. passage_of here ≡ spec.maybe_suite otherwise.now
        (past (arms_contents arms.now) (inside (point_of point)))) }
{
    match otherwise {
        Some(block) => Ok(suite(
            block,
            setting::past_arms(at, arms, setting::inside(point)?)?,
        )),
        None => Ok(no_passage()),
    }
}

/// The suite of a loop.
fn suite_of_loop<'a>(at: &Setting<'a>, stmt: u32) -> Result<Passage<'a>, NoMemory>
    ensures { IfOk result (λ here. passage_of here
        ≡ spec.suite_in spec.suite_of_loop (passage_at (file_in at.now) at.now.routine stmt)) }
{
    let here = at.passage(stmt);
    match here.stmts.first() {
        Some(first) => match &first.what {
            What::While(header, body) | What::For(_, header, body) => {
                loop_suite(header, body, here.point)
            }
            What::Expr(_)
            | What::Assign(_, _)
            | What::Aug(_, _, _)
            | What::If(_, _)
            | What::Return(_)
            | What::Break
            | What::Continue
            | What::Pass
            | What::Assert(_, _) => Ok(no_passage()),
        },
        None => Ok(no_passage()),
    }
}

/// The suite of a loop that begins at a place.
fn loop_suite<'a>(header: &Expr, body: &'a Block, point: Point) -> Result<Passage<'a>, NoMemory>
    ensures { IfOk result (λ here. passage_of here
        ≡ spec.suite body.now (past_expression header.now (inside (point_of point)))) }
{
    let behind = setting::past_expression(header, setting::inside(point)?)?;
    Ok(suite(body, behind))
}
