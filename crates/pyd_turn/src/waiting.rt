//! Waiting for a turn, and waking those who wait.
ghost use Rattle.std.specs.Prelude.{◌≡◌, []};
ghost use Rattle.pyd_turn.specs.Steps.{Served};
ghost use Rattle.pyd_turn.specs.declared.view.Stage.TheVariants.{Waits};

use crate::View;
use crate::rule::{Board, Look, SERVING, TICKET};
use atomic_table::Seat as Place;
use crossbeam_utils::Backoff;
use pyd_board::Kept;
use std::sync::Wait;

/// A turn with this number or a higher one never comes.
const MOST_TURNS: u64 = 1 << 62;

/// A thread sleeps on the low bits of a word. Fewer seats wait at a time than these bits count.
const LOW_BITS: u64 = 1 << 32;

/// Returns when the serving number is the seat's turn. The value is then the seat's.
/// It spins at first, then yields, then sleeps until the serving number changes.
pub(crate) fn await_turn<T: Kept, W: Wait>(
    rt: &W,
    board: &Board<T>,
    place: &mut Place<Option<T>, View>,
    turn: u64,
)
    requires lock { (place.old.table_id ≡ board.now.table_id) × (board.now.table_id.words ≡ 2) }
    requires waits { (place.old.me.0.stage ≡ Waits turn) × (place.old.me.1 ≡ []) }
    ensures lock { place.new.table_id ≡ place.old.table_id }
    ensures served { Served T.name T.history place.old.me place.new.me }
{
    let backoff = Backoff::new();
    for _ in rt.forever() {
        let serving = board.peek(SERVING);
        if serving == turn && turn < MOST_TURNS && board.load::<Look>(place, SERVING) == turn {
            return;
        }
        if backoff.is_completed() {
            board.park(rt, SERVING, (serving % LOW_BITS) as u32);
        } else {
            backoff.snooze();
        }
    }
    unreachable!()
}

/// Wakes the threads that sleep, where a turn was drawn after the one that has ended.
/// A thread draws its turn before it looks at the serving number, and sleeps only where that still
/// stands: so either it is seen here, or it sees that the serving number has changed.
pub(crate) fn wake_waiting<T: Kept>(board: &Board<T>, ended: u64)
    requires lock { board.now.table_id.words ≡ 2 }
{
    if board.peek(TICKET) > ended.saturating_add(1) {
        board.wake_all(SERVING);
    }
}
