//! How runs go on: contracts of functions with empty bodies.
ghost use Rattle.pyd_runs.specs.Following.{BeginningLaw, JournalLaw, SparedLaw, StepLaw, TrimmedLaw, TrimsLaw};

/// A legal run's beginning is legal, and what follows it is legal from the state there on; and the other way
/// round.
pub fn beginning_law()
    ensures { BeginningLaw }
{}

/// One event more is a step from the state before it.
pub fn step_law()
    ensures { StepLaw }
{}

/// The journal of the state after a run is the run.
pub fn journal_law()
    ensures { JournalLaw }
{}

/// A Trim leaves what other nodes may be trimmed.
pub fn trimmed_law()
    ensures { TrimmedLaw }
{}

/// So does a loss.
pub fn spared_law()
    ensures { SparedLaw }
{}

/// Where no loss comes due, all past nodes that the chain doesn't reach may be trimmed in a row.
pub fn trims_law()
    ensures { TrimsLaw }
{}
