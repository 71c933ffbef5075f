//! A small board: that the trait of boards can be met, and its calls through the bound.
#![tactic(auto)]

mod fixed_board;
mod keeping;
mod slot;
#[cfg(test)]
mod tests;

pub use fixed_board::FixedBoard;
pub use slot::{Reply, Slot};
