//! Tests of the program's work over memory, and of the calls that want the program of a source.
#![tactic(auto)]

#[cfg(test)]
mod calls;
#[cfg(test)]
mod numbers;
#[cfg(test)]
mod program;
#[cfg(test)]
mod reading;
