//! The rules of scope: which files are accepted, and the program that an accepted file is.
#![tactic(auto)]

mod cells;
mod checks;
mod definitions;
mod heads;
mod index;
mod jumps;
mod least;
mod marks;
mod names;
mod numbering;
mod once;
mod parameters;
mod parts;
mod places;
mod program;
mod refusal;
mod refusals;
mod resolve;
mod routine;
mod sightings;
mod standing;
mod stmts;
mod table;
mod tables;
mod uses;
mod words;

pub use checks::check;
pub use jumps::{Jump, least_jump};
pub use program::Program;
pub use refusal::{CheckStop, Refusal};
pub use routine::Routine;
pub use stmts::{Place, Stmts};
pub use uses::Use;
