//! What a worker is asked to do.
ghost use Rattle.std.specs.Prelude.{◌≡◌};

use crate::OpCode;
use pyd_value::{Kind, List, Value};

/// The task of a node with the values of its arguments.
#[derive(Drop)]
pub enum Task {
    Op { op: OpCode, args: List<Value> },
    /// Raises the kind where there is no value.
    Read { value: Option<Value>, kind: Kind },
    /// A call of a pure function, by its routine's number.
    Call { func: u32, args: List<Value> },
    /// A call of any other function.
    Run { func: u32, args: List<Value> },
}

/// A task for a node: how often it was placed before and now, its line, and its routine's depth.
#[derive(Drop)]
pub struct Job {
    pub node: u64,
    /// Counted from 1.
    pub attempt: u64,
    pub line: u32,
    pub depth: u32,
    pub task: Task,
}

impl Task {
    ghost use Rattle.pyd_ir.specs.Meaning.{is_call};

    /// Whether it calls a function of the file.
    pub fn is_call(&self) -> bool
        ensures { result ≡ is_call self.now }
    {
        match self {
            Task::Op { .. } | Task::Read { .. } => false,
            Task::Call { .. } | Task::Run { .. } => true,
        }
    }
}
