//! The store of a machine: the outcomes of the nodes that were run on it.
#![tactic(auto)]

mod laws;
mod store;

pub use laws::a_store_is_a_map;
pub use store::Store;
