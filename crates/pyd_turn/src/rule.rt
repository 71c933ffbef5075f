//! The rule of a lock's table, and what each of its steps tells.

use crate::View;
use atomic_table::{Join, Play, Shared, Split, TableRule};
use pyd_board::Kept;
use std::snapshot::Snapshot;

/// Two words, the ticket and the serving number, and the slot of the value.
pub(crate) type Board<T> = Shared<Option<T>, View, Snapshot<T>, Turns>;

/// The numbers of the words and of the slot.
pub(crate) const TICKET: usize = 0;

pub(crate) const SERVING: usize = 1;

pub(crate) const VALUE: usize = 0;

pub struct Turns;

impl<T: Kept> TableRule<Option<T>, View, Snapshot<T>> for Turns {
    ghost use Rattle.pyd_turn.specs.Rule.{Locked};
    ghost use Rattle.pyd_turn.specs.Views.{opened};

    ghost holds = { λ k. Locked T.name T.history (T.name k.value) };

    ghost first = { λ k. opened (T.name k.value) (T.history k.value) };
}

/// The ticket is raised, and the number drawn is the seat's turn.
pub(crate) struct Queue;

impl<T: Kept> Play<Option<T>, View> for Queue {
    ghost use Rattle.pyd_turn.specs.Steps.{Queued};

    ghost then = { Queued };
}

/// The serving number is read, and where it is the seat's turn the value is the seat's.
pub(crate) struct Look;

impl<T: Kept> Play<Option<T>, View> for Look {
    ghost use Rattle.pyd_turn.specs.Steps.{Looked};

    ghost then = { Looked T.name T.history };
}

/// The serving number is raised, and the value is at home.
pub(crate) struct Leave;

impl<T: Kept> Play<Option<T>, View> for Leave {
    ghost use Rattle.pyd_turn.specs.Steps.{Left};

    ghost then = { Left T.history };
}

/// A word is read, and the seat is told what the rule says of its view.
pub(crate) struct Learn;

impl<T: Kept> Play<Option<T>, View> for Learn {
    ghost use Rattle.pyd_turn.specs.Steps.{Learned};

    ghost then = { Learned };
}

/// A seat with the next number comes of seat 0.
pub(crate) struct Cut;

impl Split<View> for Cut {
    ghost use Rattle.pyd_turn.specs.Views.{with_one_more, newcomer};

    ghost left = { with_one_more };

    ghost right = { newcomer };
}

/// Seat 0 takes in what another knows, and the other is spent.
pub(crate) struct Glue;

impl Join<View> for Glue {
    ghost use Rattle.pyd_turn.specs.Views.{joined_with, spent};

    ghost both = { joined_with };

    ghost spent = { spent };
}
