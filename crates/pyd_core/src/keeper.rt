//! A run as far as it has come.

use crate::log::Log;
use pyd_board::Setup;
use pyd_desk::{Desk, Line};
use pyd_scope::Program;
use pyd_value::End;
use std::alloc::Global;

/// What a cluster keeps of its run, beside its sink and its placer.
#[derive(Drop)]
pub struct Core {
    /// Where later calls take their memory.
    pub alloc: Global,
    pub program: Program,
    pub setup: Setup,
    pub line: Line,
    /// As many marks as numbers were given to nodes.
    pub desk: Desk,
    pub log: Log,
    /// How many losses of the script have come.
    pub lost: usize,
    pub end: Option<End>,
}
