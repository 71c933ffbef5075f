//! Why tokens have no derivation.

/// Why tokens have no derivation.
#[derive(Clone, Copy, Debug, PartialEq, Eq)]
pub enum Stop {
    /// The place of the first token, counted from 0, with which the tokens begin no script.
    Hopeless(usize),
    /// The tokens begin a script, and are none.
    Unfinished,
    NoMemory,
}
