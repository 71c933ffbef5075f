//! The lines that a derivation is refused with, from its last step to its first.
ghost use Rattle.std.specs.Prelude.{◌≡◌, ◌≤◌, ◌-◌, length, drop, All, IfOk};
ghost use Rattle.pyd_syntax.specs.Script.{IsDerivation};
ghost use Rattle.pyd_derivation.specs.Productions.{grammar};
ghost use Rattle.pyd_derivation.specs.Derivation.{line_of};
ghost use Rattle.pyd_derivation.specs.Reading.{shifts, MayBack, IsKnown};
ghost use Rattle.pyd_measure.specs.Lines.{IsDeepLine, IsTargetLine};
ghost use Rattle.pyd_measure.specs.States.{Back, state};

use crate::found::Measured;
use crate::measuring::measuring_of;
use crate::state::{State, expand, shift, start};
use pyd_lex::Token;
use pyd_syntax::Step;
use pyd_value::NoMemory;
use std::alloc::Global;

/// The line of the token at this place.
fn line_at(tokens: &[Token], at: usize) -> u32
    ensures { result ≡ line_of (drop at tokens.now) }
{
    if at < tokens.len() {
        tokens[at].line
    } else {
        0
    }
}

/// One step back, from a place among the tokens to one.
fn back(tokens: &[Token], state: &mut State, step: Step, at: usize) -> Result<usize, NoMemory>
    requires may { MayBack grammar tokens.now step at }
    requires suites { state.old.suites ≤ length tokens.now - at }
    ensures { IfOk result (λ next. Back tokens.now step state.old at state.new next) }
{
    match step {
        Step::Shift => {
            shift(state, tokens[at - 1].kind)?;
            Ok(at - 1)
        }
        Step::Expand(production) => {
            expand(state, measuring_of(production), line_at(tokens, at))?;
            Ok(at)
        }
    }
}

/// What is known at the first of these steps.
fn read(alloc: Global, tokens: &[Token], steps: &[Step]) -> Result<State, NoMemory>
    requires shifts { shifts steps.now ≡ length tokens.now }
    requires known { All (IsKnown grammar) steps.now }
    ensures { IfOk result (λ known. known ≡ state steps.now tokens.now) }
{
    let mut state = start(alloc);
    let mut at = tokens.len();
    let mut i = steps.len();
    while i > 0 {
        i -= 1;
        match back(tokens, &mut state, steps[i], at) {
            Ok(next) => at = next,
            Err(stop) => return Err(stop),
        }
    }
    Ok(state)
}

/// The lines that the derivation by these steps is refused with.
pub fn measure(alloc: Global, tokens: &[Token], steps: &[Step]) -> Result<Measured, NoMemory>
    requires { IsDerivation steps.now tokens.now }
    ensures deep { IfOk result (λ measured. IsDeepLine tokens.now measured.deep) }
    ensures target { IfOk result (λ measured. IsTargetLine tokens.now measured.target) }
{
    Ok(read(alloc, tokens, steps)?.found)
}
