//! What the calls of a board answer.

use pyd_board::Ticket;

/// What a claim gives.
#[derive(Drop)]
pub enum Claimed<J> {
    /// The job, which the seat now holds.
    Job(J),
    /// Every run is over, or the board is halted.
    Over,
    /// The seat's machine is lost in the node's run. The ticket comes back.
    Lost(Ticket),
    /// The node's run is over, or the attempt isn't the node's live one.
    Stale,
}

/// What became of the outcome of a job.
#[derive(Clone, Copy, Debug, PartialEq, Eq)]
pub enum Finished {
    Kept,
    /// The seat's machine was lost since the claim, or the node's run has ended.
    Dropped,
}

/// What a step did.
#[derive(Debug, Drop)]
pub enum Moved {
    /// The head was settled, or a composite refined, and there are no tickets; or nodes were placed,
    /// and these are their tickets in the order of the nodes' numbers.
    Did(Vec<Ticket>),
    /// No node can be settled, refined or placed in a run that isn't over.
    Nothing,
    /// Every run is over, or the board is halted.
    Over,
    /// The seat's machine is lost in a run that isn't over.
    Lost,
    /// The sink failed as the head's lines went out. The run keeps the fault.
    SinkFault,
}
