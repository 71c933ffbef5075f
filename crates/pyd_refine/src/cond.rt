//! An `if` once the value of an arm's test is there (Python Language Reference, section 8.1).
ghost use Rattle.std.specs.Prelude.{◌≡◌, suc, slice_get, Some, IfOk};
ghost use Rattle.std.specs.Option.{option_copied};
ghost use Rattle.pyd_scope.specs.Numbering.{arms_contents, inside as inside_point};
ghost use Rattle.pyd_translate.specs.Flows.{point_of, StandsIn};
ghost use Rattle.pyd_translate.specs.Compounds.{first_compound};
ghost use Rattle.pyd_refine.specs.Composites as spec;
ghost use Rattle.pyd_refine.specs.Drafts.{Ends, cond_in, tested_in};

use pyd_ir::{Arg, Frame};
use pyd_scope::Stmts;
use pyd_translate::{
    Composite, Draft, Point, Setting, Spot, Start, build_header, build_last, build_start,
    frames_of, inside, past_arms,
};
use pyd_tree::{Arm, What};
use pyd_value::NoMemory;

/// Where the test of its arm was true the arm's suite, else the next arm; an arm that isn't there leaves
/// the `else`. Then the rest.
pub(crate) fn refine_cond(
    at: &Setting<'_>,
    stmt: u32,
    arm: u32,
    rest: &[Frame],
    truth: bool,
    env: &mut Vec<Arg>,
    draft: &mut Draft,
) -> Result<Arg, NoMemory>
    ensures { IfOk result (λ v. Ends draft.old
        (cond_in at.now stmt arm rest.now truth env.old.items)
        env.old.items draft.new env.new.items v) }
{
    let here = at.passage(stmt);
    let arms = arms(&here.stmts);
    match arm_at(arms, arm) {
        Some(_) => {
            if truth {
                build_start(at, &Start::Arm { stmt, arm }, rest, env, draft)
            } else {
                test_next(at, stmt, arm, arms, here.point, rest, env, draft)
            }
        }
        None => build_start(at, &Start::Otherwise(stmt), rest, env, draft),
    }
}

/// The arms of the first of some statements, if it is an `if`.
fn arms<'a>(stmts: &Stmts<'a>) -> &'a [Arm]
    ensures { result.now ≡ spec.arms_of (first_compound stmts.now) }
{
    let Some(stmt) = stmts.first() else {
        return &[];
    };
    match &stmt.what {
        What::If(arms, _) => arms.as_slice(),
        What::While(_, _) | What::For(_, _, _) => &[],
        What::Expr(_)
        | What::Assign(_, _)
        | What::Aug(_, _, _)
        | What::Return(_)
        | What::Break
        | What::Continue
        | What::Pass
        | What::Assert(_, _) => &[],
    }
}

/// An arm by its number, if it is there.
fn arm_at(arms: &[Arm], arm: u32) -> Option<&Arm>
    ensures { option_copied result ≡ slice_get arms.now arm }
{
    arms.get(arm as usize)
}

/// The arm behind one whose test was false, or the `else`.
fn test_next(
    at: &Setting<'_>,
    stmt: u32,
    arm: u32,
    arms: &[Arm],
    point: Point,
    rest: &[Frame],
    env: &mut Vec<Arg>,
    draft: &mut Draft,
) -> Result<Arg, NoMemory>
    requires { StandsIn at.now (arms_contents arms.now) (inside_point (point_of point)) }
    ensures { IfOk result (λ v. Ends draft.old
        (tested_in at.now stmt (suc arm) (slice_get arms.now (suc arm)) rest.now
        (spec.arm_point arms.now (suc arm) (point_of point)) env.old.items)
        env.old.items draft.new env.new.items v) }
{
    let Some(next) = arm.checked_add(1) else {
        return Err(NoMemory);
    };
    match arm_at(arms, next) {
        Some(a) => {
            let before = &arms[..next as usize];
            let point = past_arms(at, before, inside(point)?)?;
            test_arm(at, stmt, next, a, point, rest, env, draft)
        }
        None => build_start(at, &Start::Otherwise(stmt), rest, env, draft),
    }
}

/// The test of an arm in the arm's line, and the Cond behind it.
fn test_arm(
    at: &Setting<'_>,
    stmt: u32,
    arm: u32,
    a: &Arm,
    point: Point,
    rest: &[Frame],
    env: &mut Vec<Arg>,
    draft: &mut Draft,
) -> Result<Arg, NoMemory>
    ensures { IfOk result (λ v. Ends draft.old
        (tested_in at.now stmt arm (Some a.now) rest.now (point_of point) env.old.items)
        env.old.items draft.new env.new.items v) }
{
    let frames = frames_of(at.alloc, rest)?;
    let spot = Spot {
        setting: *at,
        line: a.line,
        point: Point {
            statement: stmt,
            expression: point.expression,
        },
        early: true,
        rest,
    };
    match build_header(&spot, &a.test, env.as_slice(), draft)? {
        Some(test) => build_last(&spot, Composite::Cond(arm), test, frames, env, draft),
        None => Ok(Arg::Unbound),
    }
}
