//! The generated source: a script of any number of parts' worth of work, the same text for the same number.
#![tactic(auto)]

mod source;

pub use source::make_source;
