//! Which claims a seat holds: contracts of functions with empty bodies.
ghost use Rattle.pyd_runs.specs.Claims.{HoldLaw, KeptSeatLaw, LetGoLaw, OwnLaw, SeatLaw, SinceLaw, TakeLaw};

/// A claim is held until its own seat finishes or drops that attempt of the node.
pub fn hold_law()
    ensures { HoldLaw }
{}

/// Then it isn't held any more.
pub fn let_go_law()
    ensures { LetGoLaw }
{}

/// What is held behind an event was held before it, or the event claims it.
pub fn take_law()
    ensures { TakeLaw }
{}

/// Behind a legal run a claim that is held, also one that a loss undid, is by a seat of its machine.
pub fn seat_law()
    ensures { SeatLaw }
{}

/// Every event that may come keeps that so.
pub fn kept_seat_law()
    ensures { KeptSeatLaw }
{}

/// Which claims a seat holds depends on its own events alone.
pub fn own_law()
    ensures { OwnLaw }
{}

/// Behind its Claim a job is held, as the node's job was then, as long as its seat doesn't let it go.
pub fn since_law()
    ensures { SinceLaw }
{}
