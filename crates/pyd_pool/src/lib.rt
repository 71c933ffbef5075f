//! Tickets on their way from hand to hand: a deque for each worker, a queue for each machine, and
//! an account by which every ticket is found again at the close.
#![tactic(auto)]

mod account;
mod calls;
mod closing;
mod hand;
mod looks;
mod making;
mod places;
mod pool;
mod reach;
mod rule;

pub use hand::Hand;
pub use pool::Pool;
