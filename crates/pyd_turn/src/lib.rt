//! A lock that hands one value from seat to seat, in the order in which they ask for it, and says
//! what each seat knows of the value's history.
#![tactic(auto)]

mod lock;
mod rule;
mod seat;
mod view;
mod waiting;

pub use seat::{Seat, TurnLock};
pub use view::{Stage, Tally, View};
