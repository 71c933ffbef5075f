//! Sources of bytes, sinks for bytes, and the causes of their faults.
#![tactic(auto)]

mod failed;
mod failure_plan;
mod mem_sink;
mod mem_source;
mod null_sink;
mod reading;
mod sink;
mod source;
mod standard;
mod writing;

pub use failed::Failed;
pub use mem_sink::MemSink;
pub use mem_source::MemSource;
pub use null_sink::NullSink;
pub use reading::{ReadStop, read_all};
pub use sink::Sink;
pub use source::Source;
pub use standard::{StdSink, StdSource};
pub use writing::{Short, put_all};
