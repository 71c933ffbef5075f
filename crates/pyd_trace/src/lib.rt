//! A run's journal as text, with one spelling for each, and read back.
#![tactic(auto)]

mod guess;
mod laws;
mod read;
mod write;

pub use laws::{
    a_line_has_one_newline, a_number_has_one_spelling, a_trace_has_one_reading,
    bytes_have_one_answer,
};
pub use read::{TraceStop, read_trace};
pub use write::trace_text;
