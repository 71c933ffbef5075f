//! The file that the tokens of a source are read as, or their first fault.
#![tactic(auto)]

mod fault;
mod laws;
mod parser;

pub use fault::{ParseFault, ParseStop};
pub use laws::{an_answer, faults_by_cause, files_are_well_formed, one_answer};
pub use parser::parse;
