//! Tests of what is done with values: operators, builtin functions and texts.
#![tactic(auto)]

mod callers;
#[cfg(test)]
mod ops;
#[cfg(test)]
mod text;

pub use callers::sum_is_less;
