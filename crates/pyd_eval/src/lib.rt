//! The evaluator: what a call of a function and a whole script print and give, by recursion over
//! the tree and with slots for names.
#![tactic(auto)]

mod activation;
mod arguments;
mod binding;
mod builtins;
mod calls;
mod completion;
mod evaluate;
mod execute;
mod got;
mod iteration;
mod junction;
mod loops;
mod operate;
mod reading;
mod script;
mod slots;
mod small;
mod suffixes;

pub use pyd_meaning::{Limits, Ran};
pub use script::{Whole, call, module};
