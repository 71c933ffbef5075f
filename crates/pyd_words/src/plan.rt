//! What the words of the command line ask for.

use pyd_board::Loss;
use pyd_value::List;

/// What the program is to do.
#[derive(Clone, Copy, Debug, PartialEq, Eq)]
pub enum Mode {
    /// Runs a script on machines.
    Run,
    /// Runs a script and writes the trace.
    Trace,
    /// Checks a script.
    Check,
    /// Writes the graph of a script's start.
    Graph,
    /// Checks a trace against its script.
    Replay,
    /// Runs the generated source.
    Demo,
}

/// A mode and its settings, each within its limits.
#[derive(Debug, Drop, PartialEq, Eq)]
pub struct Plan {
    pub mode: Mode,
    pub machines: u32,
    /// How many workers each machine has.
    pub workers: u32,
    /// How many turns an activation of a loop may make.
    pub turns: u64,
    /// How deep a call may stand.
    pub depth: u32,
    /// How many nodes may stand before a composite that is refined.
    pub window: u32,
    /// Whether nodes are placed near their inputs, and not round the machines.
    pub near: bool,
    /// In order of their events, losses of one event as written.
    pub losses: List<Loss>,
    /// The number of the generated source, 0 outside `Demo`.
    pub number: u64,
}

/// The numbers of the options.
#[derive(Clone, Copy, Debug)]
pub struct Numbers {
    pub machines: u32,
    pub workers: u32,
    pub turns: u64,
    pub depth: u32,
    pub window: u32,
    pub number: u64,
}
