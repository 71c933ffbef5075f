//! How many numbers were given to nodes.
ghost use Rattle.std.specs.Prelude.{◌≡◌, ◌<◌, ◌^◌, length};
ghost use Rattle.pyd_core.specs.Cores.{IsCore, state_of};

use crate::keeper::Core;
use pyd_desk::Mark;
use std::mem::size_of_val;

impl Core {
    /// The number that the next node gets.
    pub fn next_number(&self) -> u64
        requires { IsCore self.now }
        ensures value { result ≡ (state_of self.now).graph.next }
        ensures few { result < 2 ^ 58 }
    {
        mark_count(self.desk.marks.as_slice()) as u64
    }
}

/// How many marks there are. Each has 64 bytes and more, and all of them fewer than 2^64.
fn mark_count(marks: &[Mark]) -> usize
    ensures value { result ≡ length marks.now }
    ensures few { result < 2 ^ 58 }
{
    let _ = size_of_val(marks);
    marks.len()
}
