//! What contracts see of a cluster.
use pyd_board::{History, RunName};
use pyd_steps::Told;

/// What contracts see of a run and its sink. No value of it is made.
pub struct Known {
    pub run: RunName,
    pub history: History,
    /// What the sink told before the run.
    pub opening: Told,
    pub sink: Told,
}
