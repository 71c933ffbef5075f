//! Where statements begin that are made into nodes.

use pyd_ir::Rest;

/// The statements that come first. Statements and arms have their numbers in a routine, in text order
/// from 0.
#[derive(Drop)]
pub enum Start {
    /// The routine's body.
    Body,
    /// The suite of an arm of an `if`.
    Arm { stmt: u32, arm: u32 },
    /// The suite of an `else`.
    Otherwise(u32),
    /// The suite of a loop.
    LoopBody(u32),
    /// No statement: what stands behind goes on at once.
    Rest,
}

/// A start in a routine that was called at a depth, and what goes on behind the statements there.
#[derive(Drop)]
pub struct At {
    pub routine: u32,
    pub depth: u32,
    pub start: Start,
    pub rest: Rest,
}
