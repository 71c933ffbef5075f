//! What the lock, the pool, the workers, the trace and the cluster all speak of: the events of a run
//! and its history, tickets, placers, gates and runners.
#![tactic(auto)]

mod event;
mod gate;
mod history;
mod journal;
mod kept;
mod laws;
mod machines;
mod near;
mod noted_placer;
mod placer;
mod round_robin;
mod runner;
mod seat;
mod setup;

pub use event::{Act, Event};
pub use gate::{Gate, OpenGate};
pub use history::{Halt, History};
pub use journal::{Journal, entries};
pub use kept::{Kept, RunName};
pub use laws::{
    a_history_extends_itself, entries_grow, extending_is_transitive, extensions_by_one_seat_are_one,
};
pub use machines::placed_on;
pub use near::Near;
pub use noted_placer::NotedPlacer;
pub use placer::{Asked, Placer};
pub use round_robin::RoundRobin;
pub use runner::{Answer, Runner};
pub use seat::{Ticket, Who};
pub use setup::{Loss, Setup};
