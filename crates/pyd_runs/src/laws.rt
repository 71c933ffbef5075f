//! The laws of runs: contracts of functions with empty bodies.
ghost use Rattle.pyd_runs.specs.Laws.{AgainLaw, BarLaw, ClaimLaw, DropLaw, EndLaw, EventLaw, FinishLaw, LoseLaw, LossLaw, NeedLaw, OnceLaw, PlaceLaw, PrefixLaw, ProgressLaw, ReachLaw, RefineLaw, RunLaw, SettleLaw, SightLaw, StepsLaw, TrimLaw};
ghost use Rattle.pyd_runs.specs.Promise.{Promise};

/// While a run goes on, a loss that is due bars any other event.
pub fn bar_law()
    ensures { BarLaw }
{}

/// A claim that is dropped keeps what holds.
pub fn drop_law()
    ensures { DropLaw }
{}

/// A ticket that may be placed keeps what holds.
pub fn place_law()
    ensures { PlaceLaw }
{}

/// A claim that may be finished keeps what holds.
pub fn finish_law()
    ensures { FinishLaw }
{}

/// What is seen of settled nodes is what they gave, and of the chain's what they do by what is seen.
pub fn sight_law()
    ensures { SightLaw }
{}

/// A loss that is due keeps what holds.
pub fn lose_law()
    ensures { LoseLaw }
{}

/// Losses stand exactly at their places.
pub fn loss_law()
    ensures { LossLaw }
{}

/// A past node that may be trimmed keeps what holds.
pub fn trim_law()
    ensures { TrimLaw }
{}

/// A claim of a live ticket keeps what holds.
pub fn claim_law()
    ensures { ClaimLaw }
{}

/// The head of the chain that may be settled keeps what holds, whatever it gave.
pub fn settle_law()
    ensures { SettleLaw }
{}

/// A composite that may be refined keeps what holds.
pub fn refine_law()
    ensures { RefineLaw }
{}

/// Every event that may come keeps what holds.
pub fn event_law()
    ensures { EventLaw }
{}

/// What holds before any event holds after every legal run, wherever machines are lost.
pub fn run_law()
    ensures { RunLaw }
{}

/// The lines that a legal run put out are the first of the script's.
pub fn prefix_law()
    ensures { PrefixLaw }
{}

/// A legal run that has ended put out all of the script's lines, and ended as the script does.
pub fn end_law()
    ensures { EndLaw }
{}

/// No node is settled twice in a legal run.
pub fn once_law()
    ensures { OnceLaw }
{}

/// Between two claims of one node stands a loss of the machine that claimed it first.
pub fn again_law()
    ensures { AgainLaw }
{}

/// A sound state in which the run hasn't ended has an event that is neither a Trim nor a Drop.
pub fn progress_law()
    ensures { ProgressLaw }
{}

/// Where only the head may be refined, a legal run settles and refines at most 4 nodes for each step of the
/// script's meaning.
pub fn steps_law()
    ensures { StepsLaw }
{}

/// What is promised of every legal run: its lines are the first of the script's, and at its end all of them;
/// no node is settled twice, or claimed again without a loss; losses come at their places; where it hasn't
/// ended an event on the way to the end may come; and in head order its events are bounded.
pub fn promise_law()
    ensures { Promise }
{}

/// What the chain reaches through arguments is what lineage says that it reaches.
pub fn reach_law()
    ensures { ReachLaw }
{}

/// What is needed stands in the chain, or is what lineage says that the chain reaches, all that has a record
/// being known.
pub fn need_law()
    ensures { NeedLaw }
{}
