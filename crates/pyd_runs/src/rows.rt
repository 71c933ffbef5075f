//! Short runs of `print(1 + 2, 3 + 4)` on two machines of one worker each, event by event: contracts of
//! functions with empty bodies.
ghost use Rattle.pyd_runs.specs.Rows as rows;

/// The second sum is placed once the first one is settled.
pub fn in_turn_row()
    ensures { rows.InTurnRow }
{}

/// Both sums are claimed at once, on two machines.
pub fn at_once_row()
    ensures { rows.AtOnceRow }
{}

/// The second sum is done before the first one is placed.
pub fn second_first_row()
    ensures { rows.SecondFirstRow }
{}

/// A machine is lost while it does the first sum, which is then done on the other.
pub fn lost_in_claim_row()
    ensures { rows.LostInClaimRow }
{}

/// A machine is lost once the first sum is done there and before it is settled, and the sum is done
/// again.
pub fn lost_when_done_row()
    ensures { rows.LostWhenDoneRow }
{}

/// A loss that is due before any event is the one event that may come.
pub fn only_loss_row()
    ensures { rows.OnlyLossRow }
{}
