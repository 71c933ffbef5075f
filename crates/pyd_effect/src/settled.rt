//! What is settled of a node.

use pyd_value::{End, List, Text};

/// What became of the head of the chain.
#[derive(Debug, Drop, PartialEq, Eq)]
pub enum Settled {
    /// It gave a value, and these lines go out.
    Passed(List<Text>),
    /// These lines go out, and then the run ends so.
    Ended(List<Text>, End),
    /// The node of this number waits for what its own job gives, or for a value of an argument.
    Waits(u64),
}
