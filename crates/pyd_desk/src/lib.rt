//! The desk of a run: its nodes, what is kept at their numbers, and what events do to both.
#![tactic(auto)]

mod adding;
mod copying;
mod desk;
mod dropping;
mod finding;
mod growing;
mod jobs;
mod line;
mod losing;
mod marks;
mod moves;
mod numbering;
mod passing;
mod reading;
mod redirecting;
mod replacing;
mod starting;
mod stores;
mod tickets;
mod trimming;
mod works;

pub use desk::{Desk, Held, Mark, Placed, PortKind, Undone};
pub use finding::{find, heads};
pub use line::Line;
pub use passing::pass_head;
pub use stores::is_lost;
pub use works::{has_job, is_composite, is_pure, port_kind};
