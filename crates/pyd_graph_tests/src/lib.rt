//! Tests of the nodes that scripts become, as text.
#![tactic(auto)]

#[cfg(test)]
mod pieces;
mod reading;
#[cfg(test)]
mod scripts;

pub use reading::program_of;
