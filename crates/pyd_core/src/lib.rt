//! A run as far as it has come, and the events that take it on.
#![tactic(auto)]

mod claiming;
mod ending;
mod facts;
mod finishing;
mod keeper;
mod log;
mod losing;
mod numbering;
mod ordering;
mod placing;
mod preparing;
mod refining;
mod rooms;
mod settling;
mod starting;
mod trimming;
mod wanting;

pub use facts::{end_law, lawful_law, next_law};
pub use keeper::Core;
pub use log::Log;
pub use settling::{Leaves, Settling};
pub use trimming::{behind_head_law, unreached_law};
pub use wanting::wanted_law;
