//! The work of the program: from its words and its source to its output, an error line and a status.
#![tactic(auto)]

mod accepting;
mod check;
mod conclusion;
mod graph;
mod laws;
mod lines;
mod mode;
mod report;
mod run;
mod source_stop;
mod status;
mod top;

pub use accepting::check_source;
pub use conclusion::Conclusion;
pub use laws::{one_answer, one_work};
pub use mode::Mode;
pub use source_stop::SourceStop;
pub use status::{Ended, Status};
pub use top::{end_with, pydron_here};
