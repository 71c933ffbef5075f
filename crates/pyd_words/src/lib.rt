//! The words of the command line, read as a plan.
#![tactic(auto)]

mod command;
mod fault;
mod laws;
mod losses;
mod number;
mod options;
mod plan;
mod read;

pub use fault::{WordsFault, WordsStop};
pub use laws::{line_is_what_the_command_refuses, losses_are_in_order, plans_are_sound};
pub use plan::{Mode, Plan};
pub use read::read_words;
