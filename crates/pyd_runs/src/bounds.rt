//! How many events a run has at most where the head alone is refined: contracts of functions with empty bodies.
ghost use Rattle.pyd_runs.specs.Bounds.{EventCountLaw, HeadStepsLaw, LossCountLaw, MadeCountLaw, NodeCountLaw, OnwardBound, RunBound};

/// Where the head alone is refined, a run settles and refines at most 4 nodes for each step of the script.
pub fn head_steps_law()
    ensures { HeadStepsLaw }
{}

/// A run has no more losses than its script.
pub fn loss_count_law()
    ensures { LossCountLaw }
{}

/// In head order a node is placed, claimed and finished 3 times at most, and 3 times more for each loss.
pub fn node_count_law()
    ensures { NodeCountLaw }
{}

/// A run in head order has at most 4 events for each step of the script, one for each loss, and 3 for each
/// node that was made, and for each node and loss.
pub fn event_count_law()
    ensures { EventCountLaw }
{}

/// A run makes at most 3 nodes for each statement, arm, expression and suffix of its file, and for each step of
/// the chain as many and 3 more.
pub fn made_count_law()
    ensures { MadeCountLaw }
{}

/// A run in head order has at most 100 * S * (T + 1) * (1 + L) events: S counts the statements, arms,
/// expressions and suffixes of the file, T the steps of the script, and L the losses of the plan.
pub fn run_bound_law()
    ensures { RunBound }
{}

/// From any legal run on, at most so many events come in head order: one for each step that is left of the
/// chain and for each loss to come, and 3 for each node, and for each node and loss.
pub fn onward_bound_law()
    ensures { OnwardBound }
{}
