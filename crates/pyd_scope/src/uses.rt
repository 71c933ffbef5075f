//! What a program says that a name stands for.

use pyd_value::{Builtin, Value};

/// What a name stands for in a routine.
#[derive(Clone, Copy)]
pub enum Use<'a> {
    /// A local, and its place among the routine's slots, counted from 0. In the module each variable
    /// is a local.
    Slot(u32),
    Constant(&'a Value),
    /// A function, and the number of its `def`, counted from 1.
    Routine(u32),
    Builtin(Builtin),
    Imported,
    /// A module variable, seen from a function.
    Variable,
    Unbound,
}
