//! Steps of a derivation.

/// A step of a derivation from the left: the next token is taken, or the first rule is written out by the production of
/// this number.
#[derive(Clone, Copy, Debug, PartialEq, Eq)]
pub enum Step {
    Shift,
    Expand(u8),
}
