//! Tests of nodes: what their jobs give, and what is settled of the head of the chain.
#![tactic(auto)]

#[cfg(test)]
mod effect;
#[cfg(test)]
mod ir;
mod words;

pub use words::value_of;
