//! What comes next in head order: contracts of functions with empty bodies.
ghost use Rattle.pyd_runs.specs.HeadOrder.{HeadOrderLaw, NextLaw, NextOrderLaw};

/// What comes next in head order may be done.
pub fn next_law()
    ensures { NextLaw }
{}

/// It is an act that the bound on all events counts.
pub fn next_order_law()
    ensures { NextOrderLaw }
{}

/// Head order never sticks: where the run goes on and no loss is due, an act comes next.
pub fn head_order_law()
    ensures { HeadOrderLaw }
{}
