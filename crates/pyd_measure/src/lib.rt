//! The nesting of a script's statements, and what they assign to, of a derivation (docs/FORMATS.md, "The grammar").
#![tactic(auto)]

mod combining;
mod found;
mod headers;
mod laws;
mod limit;
mod measured;
mod measures;
mod measuring;
mod parts;
mod stack;
mod state;

pub use found::Measured;
pub use laws::{a_line, one_line, shallow_files};
pub use limit::{DEEPEST, constant_is_the_limit};
pub use measured::measure;
