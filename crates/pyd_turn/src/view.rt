//! What a seat knows of its lock. It exists in proofs alone: no value of these types is made.

use pyd_board::{History, RunName};
use pyd_value::List;

/// Where a seat stands, with the number of its turn. Turns count from 0.
pub enum Stage {
    Idle,
    Waits(u64),
    Holds(u64),
    /// The seat was joined into another.
    Spent,
}

/// A seat's number, and the number of its entries in the history that was seen.
pub struct Tally {
    pub seat: u32,
    pub entries: u64,
}

/// What a seat knows.
pub struct View {
    /// The lock's name.
    pub name: List<RunName>,
    /// The history that it saw.
    pub seen: History,
    /// How many turns had ended then.
    pub when: u64,
    pub number: u32,
    /// The number of its own entries.
    pub own: u64,
    /// How many seats were made, as seat 0 knows.
    pub made: u64,
    /// The seats that were joined into it.
    pub joined: List<Tally>,
    /// Of the two histories of its last join, the one that begins the other.
    pub earlier: History,
    pub stage: Stage,
}
