//! Tests of what stands between the bytes of a source and its program, but the grammar.
#![tactic(auto)]

mod callers;
#[cfg(test)]
mod generated;
#[cfg(test)]
mod lex;
#[cfg(test)]
mod names;
#[cfg(test)]
mod reading;
#[cfg(test)]
mod scope;
#[cfg(test)]
mod source;
#[cfg(test)]
mod tree;

pub use callers::{name_at, put_line};
