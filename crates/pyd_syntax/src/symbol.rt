//! Symbols of the grammar.

/// A symbol of the grammar: a kind of token, or a rule, by its number.
#[derive(Clone, Copy, Debug, PartialEq, Eq)]
pub enum Symbol {
    Terminal(u8),
    Rule(u8),
}
