//! Which nodes have to be run again, and which past ones may be dropped.
#![tactic(auto)]

mod awaiting;
mod lineage;
mod marking;
mod naming;
mod numbers;

pub use awaiting::first_awaited;
pub use lineage::{needed, needed_among, trim, trim_among};

#[cfg(test)]
mod tests;
