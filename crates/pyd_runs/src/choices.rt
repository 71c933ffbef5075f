//! The list of acts that may come: contracts of functions with empty bodies.
ghost use Rattle.pyd_runs.specs.Choices.{ChoicesLaw, DistinctLaw};

/// The list has exactly the acts that some seat may do.
pub fn choices_law()
    ensures { ChoicesLaw }
{}

/// No act stands twice in it.
pub fn distinct_law()
    ensures { DistinctLaw }
{}
