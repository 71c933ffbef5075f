//! What does the jobs of a run: operators and reads at once, calls by the evaluator.
#![tactic(auto)]

mod eval_runner;

pub use eval_runner::EvalRunner;

#[cfg(test)]
mod tests;
