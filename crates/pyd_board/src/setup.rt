//! The setup of a run: its limits, its machines and its loss script.

use pyd_value::List;

/// An entry of the loss script: the number of the event at which it comes due, counted from 0, and
/// the machine that is lost.
#[derive(Clone, Copy, Debug, PartialEq, Eq)]
pub struct Loss {
    pub event: u32,
    pub machine: u32,
}

/// What a run is started with, beside its source.
#[derive(Debug, Drop, PartialEq, Eq)]
pub struct Setup {
    /// How many turns an activation of a loop may make.
    pub turns: u64,
    /// How deep a call may stand.
    pub depth: u32,
    pub machines: u32,
    /// How many workers each machine has.
    pub workers: u32,
    /// How many nodes may stand before a composite that is refined.
    pub window: u32,
    /// In order of their events.
    pub losses: List<Loss>,
}
