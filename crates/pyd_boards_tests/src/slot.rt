//! The jobs of the board, and what answers them.

use pyd_board::Answer;
use pyd_tree::File;
use std::snapshot::Snapshot;

/// The job of a ticket: there is nothing to do.
#[derive(Clone, Copy, Debug, PartialEq, Eq)]
pub struct Slot {
    pub node: u64,
    pub attempt: u64,
}

/// The job that was done, and the file and limits under which it was.
#[derive(Drop)]
pub struct Reply {
    pub job: Slot,
    pub file: Snapshot<File>,
    pub turns: u64,
    pub depth: u32,
}

impl Answer<Slot> for Reply {
    ghost run = { λ _. 0 };

    ghost fits = { λ _ _. Unit {0} };

    ghost job = { λ reply. reply.job };

    ghost basis = { λ reply. record {
      file = reply.file.value;
      turns = reply.turns;
      depth = reply.depth;
    } };
}
