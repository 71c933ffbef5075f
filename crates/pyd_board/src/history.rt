//! The history of a board.

use crate::Event;
use pyd_value::List;

/// Why a board stops its workers before its runs have ended.
#[derive(Clone, Copy, Debug, PartialEq, Eq)]
pub enum Halt {
    SinkFault,
    NoMemory,
}

/// What became of a board so far, as contracts see it. No value of it is made.
pub struct History {
    /// All entries of the journal, in order.
    pub events: List<Event>,
    /// The runs that keep a fault of their sink, counted from 0.
    pub sink_faults: List<u32>,
    pub halted: Option<Halt>,
}
