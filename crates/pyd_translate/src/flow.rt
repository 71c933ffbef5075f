//! What comes of the nodes of statements.

use pyd_ir::Arg;

/// How statements are left that don't return.
#[derive(Clone, Copy)]
pub enum Exit {
    /// At their end.
    Normal,
    Break,
    Continue,
}

/// What came of statements: they go on with what stands behind them, or with this value nothing does.
#[derive(Drop)]
pub enum Flow {
    Left(Exit),
    Ended(Arg),
}
