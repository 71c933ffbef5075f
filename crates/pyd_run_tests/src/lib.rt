//! Tests of the words of a run: placers and runners, the trace and the command line.
#![tactic(auto)]

#[cfg(test)]
mod board;
mod callers;
#[cfg(test)]
mod trace;
#[cfg(test)]
mod words;

pub use callers::settle_both;
