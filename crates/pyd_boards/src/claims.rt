//! How long a seat holds its claims: contracts of functions that do nothing.
ghost use Rattle.pyd_boards.specs.Holding.{ClaimedIsHeld, HeldAfterOthers, HeldMeanwhile, NoneHeldAfter};

use crate::Board;

/// A job that a claim of the board gives is held by its seat.
pub fn claimed_is_held<B: Board>()
    ensures { ClaimedIsHeld B.facts B.may_come }
{}

/// A claim is still held after another seat's events.
pub fn held_after_others()
    ensures { HeldAfterOthers }
{}

/// A claim is held as long as its seat has no further entry, as while another seat has the board.
pub fn held_meanwhile()
    ensures { HeldMeanwhile }
{}

/// A seat that holds no claim holds none after further events without a claim of its own.
pub fn none_held_after()
    ensures { NoneHeldAfter }
{}
