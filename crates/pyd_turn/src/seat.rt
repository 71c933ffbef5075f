//! A lock and its seats.

ghost use Rattle.std.specs.Prelude.{◌≡◌, true};
ghost use Rattle.pyd_turn.specs.Views.{in_hand, lives, Tallied};

use crate::View;
use crate::rule::Turns;
use atomic_table::{Seat as Place, Table};
use pyd_board::Kept;
use std::alloc::Global;
use std::snapshot::Snapshot;

/// The right to take turns, with what its holder has seen. It has no bytes.
#[derive(Drop)]
pub struct Seat<T> {
    pub(crate) place: Place<Option<T>, View>,
    ghost hand: { place.me.1 ≡ in_hand place.me.0.stage },
    ghost alive: { lives place.me.0.stage ≡ true },
    ghost tallied: { Tallied place.me.0 },
}

/// A lock round one value. A lock that isn't needed any more is closed.
pub struct TurnLock<T: Kept> {
    pub(crate) table: Table<Option<T>, View, Snapshot<T>, Turns, Global>,
    ghost sized: { (table.shared.table_id.words ≡ 2) × (table.shared.table_id.slots ≡ 1) },
}
