//! What events leave as it was, which nodes they name, and what tickets, claims and records have: contracts of
//! functions with empty bodies.
ghost use Rattle.pyd_runs.specs.Facts.{ClaimedLaw, DeskLaw, FinishedLaw, InOrderLaw, NumberLaw, OutputLaw, TicketLaw};

/// Tickets, claims and losses leave all of the graph but what the driver keeps.
pub fn desk_law()
    ensures { DeskLaw }
{}

/// Lines are put out behind those before them, and only by a Settle.
pub fn output_law()
    ensures { OutputLaw }
{}

/// What may come behind a legal run names a node below the next number.
pub fn number_law()
    ensures { NumberLaw }
{}

/// The two lists of a sound graph stand in order, as `needed` and `trim` of `pyd_lineage` ask of them.
pub fn in_order_law()
    ensures { InOrderLaw }
{}

/// A live ticket is the last one of its node, which is ready and has neither a record nor a claim.
pub fn ticket_law()
    ensures { TicketLaw }
{}

/// A Claim's job is the node's in the state before it.
pub fn claimed_law()
    ensures { ClaimedLaw }
{}

/// A Finish leaves the meaning of its claim's job as the node's record, and no claim.
pub fn finished_law()
    ensures { FinishedLaw }
{}
