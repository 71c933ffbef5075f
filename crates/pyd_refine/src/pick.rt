//! A choice within an expression, once the value of its test is there.
ghost use Rattle.std.specs.Prelude.{◌≡◌, if◌then◌else◌, [], IfOk};
ghost use Rattle.pyd_translate.specs.Flows.{file_in, context_in};
ghost use Rattle.pyd_translate.specs.Starts.{value_or_unbound};
ghost use Rattle.pyd_refine.specs.Composites as spec;
ghost use Rattle.pyd_refine.specs.Drafts.{Ends};

use pyd_ir::{Arg, Side};
use pyd_translate::{Draft, Setting, build_side};
use pyd_value::NoMemory;

/// The nodes of the first side where the test was true, else of the second.
pub(crate) fn refine_pick(
    at: &Setting<'_>,
    line: u32,
    truth: bool,
    yes: &Side,
    no: &Side,
    env: &[Arg],
    draft: &mut Draft,
) -> Result<Arg, NoMemory>
    ensures { IfOk result (λ v. Ends draft.old
        (spec.side_refined (file_in at.now) truth yes.now no.now (context_in at.now line env.now))
        [] draft.new [] v) }
{
    let side = chosen(truth, yes, no);
    let got = build_side(&at.context(line, env), side, draft)?;
    Ok(or_unbound(got))
}

fn chosen<'a>(truth: bool, yes: &'a Side, no: &'a Side) -> &'a Side
    ensures { result.now ≡ (if truth then yes.now else no.now) }
{
    if truth { yes } else { no }
}

/// A value that a Stop may have left out.
fn or_unbound(got: Option<Arg>) -> Arg
    ensures { result ≡ value_or_unbound got }
{
    match got {
        Some(a) => a,
        None => Arg::Unbound,
    }
}
