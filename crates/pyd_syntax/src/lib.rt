//! Which lists of tokens are a script by the grammar, and where the others go wrong.
#![tactic(auto)]

mod code;
mod laws;
mod machine;
mod productions;
mod step;
mod stop;
mod symbol;
mod table;
mod terminal;

pub use laws::{an_answer, end_comes_last, one_derivation, one_first_hopeless};
pub use machine::derive;
pub use step::Step;
pub use stop::Stop;
pub use symbol::Symbol;
