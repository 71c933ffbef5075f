//! Tests of values, and of the store that holds them.
#![tactic(auto)]

mod callers;
#[cfg(test)]
mod store;
#[cfg(test)]
mod value;

pub use callers::pair;
