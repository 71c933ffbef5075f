//! The lines that a derivation is refused with.

/// The lines that a derivation is refused with, counted from 1.
#[derive(Clone, Copy)]
pub struct Measured {
    /// The line of the first statement or header that nests deeper than [`DEEPEST`](crate::DEEPEST).
    pub deep: Option<u32>,
    /// The line of the first statement that assigns to what can't be assigned to.
    pub target: Option<u32>,
}
