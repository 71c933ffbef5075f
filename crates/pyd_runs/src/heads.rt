//! What is recorded of settled nodes and of the head: contracts of functions with empty bodies.
ghost use Rattle.pyd_runs.specs.Heads.{HeadLaw, RecordLaw};

/// What is recorded of a settled node that may be named is what it gave.
pub fn record_law()
    ensures { RecordLaw }
{}

/// What is recorded of the head that may be settled, and of its inputs, is what it does.
pub fn head_law()
    ensures { HeadLaw }
{}
