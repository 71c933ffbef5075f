//! Settling the head of the chain: the lines that go out, and how it ends.
#![tactic(auto)]

mod laws;
mod settled;
mod settling;

pub use laws::{functional_law, leaf_law, walk_law};
pub use settled::Settled;
pub use settling::settle_head;
