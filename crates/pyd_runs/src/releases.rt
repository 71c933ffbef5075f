//! Which claims may be finished or dropped, and what events leave of tickets and of nodes to be placed:
//! contracts of functions with empty bodies.
ghost use Rattle.pyd_runs.specs.Releases.{PlaceApartLaw, ReleaseLaw, TicketStaysLaw};

/// A seat may drop exactly the claims that it holds of a machine that is lost, or in a run that has ended,
/// and finish exactly those that it holds otherwise.
pub fn release_law()
    ensures { ReleaseLaw }
{}

/// A Place of one node leaves which others may be placed.
pub fn place_apart_law()
    ensures { PlaceApartLaw }
{}

/// A live ticket stays until its node is claimed, a machine is lost, or a past node is trimmed.
pub fn ticket_stays_law()
    ensures { TicketStaysLaw }
{}
