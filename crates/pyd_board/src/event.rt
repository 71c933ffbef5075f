//! The events of a run, each one entry of its journal.

/// What an event does. An attempt of a node counts from 1.
#[derive(Clone, Copy, Debug, PartialEq, Eq)]
pub enum Act {
    /// The node, its attempt and the machine of its ticket.
    Place(u64, u64, u32),
    /// The node, the attempt and the machine of the seat that takes it on.
    Claim(u64, u64, u32),
    /// The node, the attempt and the machine of the seat that gives its outcome.
    Finish(u64, u64, u32),
    /// The node, the attempt and the machine of the seat that lets the claim go.
    Drop(u64, u64, u32),
    /// The composite node that is replaced by its piece.
    Refine(u64),
    /// The node at the chain's head whose lines go out.
    Settle(u64),
    /// The machine that is lost.
    Lose(u32),
    /// The settled node that nobody reaches.
    Trim(u64),
}

/// An entry of the journal.
#[derive(Clone, Copy, Debug, PartialEq, Eq)]
pub struct Event {
    /// The seat that appended it.
    pub by: u32,
    /// How many earlier events are by the same seat.
    pub nth: u64,
    pub act: Act,
}
