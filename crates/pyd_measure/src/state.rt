//! What is known at a step of a derivation, of those from it on.
ghost use Rattle.std.specs.Prelude.{◌≡◌, ◌+◌, ◌<◌, ◌^◌, IfOk, Some};
ghost use Rattle.pyd_measure.specs.States as spec;

use crate::found::Measured;
use crate::headers::{header_nesting, measured};
use crate::limit::DEEPEST;
use crate::measures::Measure;
use crate::measuring::{Measuring, arity};
use crate::parts::fits_in;
use crate::stack::Stack;
use pyd_lex::TokenKind;
use pyd_value::NoMemory;
use std::alloc::Global;

/// What is known at a step, of those from it on.
#[derive(Drop)]
pub struct State {
    /// The number of suites round the step's first token.
    pub suites: usize,
    pub measures: Stack,
    pub found: Measured,
}

/// What is known behind the last step.
pub fn start(alloc: Global) -> State
    ensures { result ≡ spec.start }
{
    State {
        suites: 0,
        measures: Stack::new(alloc),
        found: Measured {
            deep: None,
            target: None,
        },
    }
}

/// The number of suites round a token, from that behind it.
fn suites_before(kind: TokenKind, suites: usize) -> usize
    requires { suites + 1 < 2 ^ 64 }
    ensures { result ≡ spec.suites_before kind suites }
{
    match kind {
        TokenKind::Dedent => suites + 1,
        TokenKind::Indent => suites.saturating_sub(1),
        _ => suites,
    }
}

/// A token before what is known.
pub fn shift(state: &mut State, kind: TokenKind) -> Result<(), NoMemory>
    requires { state.old.suites + 1 < 2 ^ 64 }
    ensures { IfOk result (λ _. state.new ≡ spec.shifted kind state.old) }
{
    state.suites = suites_before(kind, state.suites);
    state.measures.push(Measure::Other)?;
    Ok(())
}

/// The lines, where a statement or header of this nesting in this line comes before those that they
/// were found in.
fn noted(nesting: u8, line: u32, state: &State) -> Measured
    ensures { result ≡ spec.noted (Some nesting) line state.now }
{
    let fits = fits_in(state.measures.at(0), state.measures.at(1));
    let deep = state.suites.saturating_add(nesting as usize) > DEEPEST as usize;
    Measured {
        deep: if deep { Some(line) } else { state.found.deep },
        target: if fits { state.found.target } else { Some(line) },
    }
}

/// A production over the parts in front.
pub fn expand(state: &mut State, measuring: Measuring, line: u32) -> Result<(), NoMemory>
    ensures { IfOk result (λ _. state.new ≡ spec.expanded measuring line state.old) }
{
    match header_nesting(measuring, &state.measures) {
        Some(nesting) => state.found = noted(nesting, line, state),
        None => {}
    }
    let measure = measured(measuring, &state.measures);
    state.measures.take_off(arity(measuring));
    state.measures.push(measure)?;
    Ok(())
}
