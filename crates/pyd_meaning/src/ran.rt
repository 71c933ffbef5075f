//! What a call of a function left.

use pyd_value::{List, Outcome, Text};

/// The value or fault of a call, and the lines that it printed, without their newlines.
#[derive(Debug, Drop, PartialEq, Eq)]
pub struct Ran {
    pub outcome: Outcome,
    pub lines: List<Text>,
}
