//! The arguments of nodes.
ghost use Rattle.std.specs.Prelude.{◌≡◌, IfOk};

use pyd_value::{NoMemory, Value, try_copy};
use std::alloc::Global;

/// A port of a node, counted from 0.
#[derive(Clone, Copy, Debug, PartialEq, Eq)]
pub struct Ref {
    pub node: u64,
    pub port: u32,
}

/// Where a node takes a value from.
#[derive(Drop)]
pub enum Arg {
    Known(Value),
    /// A port that has a value wherever its node has one.
    From(Ref),
    /// The port of a composite for one of its routine's slots, whose variable may be unbound.
    Slot(Ref),
    /// A variable that is surely unbound, or a value that a `Stop` left out.
    Unbound,
}

impl Arg {
    /// A copy of this argument, whose value both share.
    pub fn try_copy(&self, alloc: Global) -> Result<Arg, NoMemory>
        ensures { IfOk result (λ copy. copy ≡ self.now) }
    {
        match self {
            Arg::Known(value) => Ok(Arg::Known(try_copy(alloc, value)?)),
            Arg::From(at) => Ok(Arg::From(*at)),
            Arg::Slot(at) => Ok(Arg::Slot(*at)),
            Arg::Unbound => Ok(Arg::Unbound),
        }
    }
}
