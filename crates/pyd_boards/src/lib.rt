//! Boards: what keeps runs and serves workers.
#![tactic(auto)]

mod answers;
mod board;
mod claims;
mod tickets;

pub use answers::{Claimed, Finished, Moved};
pub use board::Board;
pub use claims::{claimed_is_held, held_after_others, held_meanwhile, none_held_after};
pub use tickets::{Served, serve};
