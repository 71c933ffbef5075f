//! What the calls of a board do to a run as far as it has come.
#![tactic(auto)]

mod claiming;
mod finishing;
mod losing;
mod machines;
mod placers;
mod placing;
mod refining;
mod settling;
mod stepping;
mod told;

pub use claiming::claim;
pub use finishing::finish;
pub use losing::lose_due;
pub use machines::{home, live_around};
pub use placers::{choose, tell};
pub use placing::place_all;
pub use refining::refine_first;
pub use settling::{Headed, Prepared, prepare, settle, settle_and_trim};
pub use stepping::step;
pub use told::Told;
