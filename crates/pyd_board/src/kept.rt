//! Values that stand for a name and a history.

use crate::Setup;
use pyd_tree::File;
use pyd_value::List;

/// What names a run, as contracts see it. No value of it is made.
pub struct RunName {
    pub file: File,
    pub setup: Setup,
    /// What the sink held before the run, where it tells it.
    pub opening: Option<List<u8>>,
}

/// A value that a lock keeps. It stands for the runs that it serves and for what became of them.
pub trait Kept {
    ghost use Rattle.std.specs.Prelude.{List};
    ghost use Rattle.pyd_board.specs.declared.history.History.{History};
    ghost use Rattle.pyd_board.specs.declared.kept.RunName.{RunName};

    /// Its runs, one entry a run. No call of a board changes it.
    ghost name: { Self → List RunName };

    /// The events, the runs that keep a sink fault, and the halt. Calls of a board extend it.
    ghost history: { Self → History };
}
