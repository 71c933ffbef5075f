//! Which losses come due one after another, which have come, and by which seat: contracts of functions with
//! empty bodies.
ghost use Rattle.pyd_runs.specs.NextLosses.{DueLaw, LeftLaw, LossSeatLaw, OnlyDueLaw};

/// While a run goes on, the losses that come due may come one after another, and none is due behind them.
pub fn due_law()
    ensures { DueLaw }
{}

/// No other losses may come so that none is due behind them.
pub fn only_due_law()
    ensures { OnlyDueLaw }
{}

/// Behind the losses that come before anything else, any seat may append a loss that is due.
pub fn loss_seat_law()
    ensures { LossSeatLaw }
{}

/// Behind events the entries to come are those that are left of the script, and just the machines that the
/// events lose are lost.
pub fn left_law()
    ensures { LeftLaw }
{}
