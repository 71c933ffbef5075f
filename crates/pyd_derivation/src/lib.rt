//! The syntax tree of a script's tokens (Python Language Reference, sections 6 to 10).
#![tactic(auto, using(crate::proofs::Shared::drop_both, crate::proofs::Shared::get_both))]

mod assignments;
mod atoms;
mod blocks;
mod build;
mod expressions;
mod file;
mod items;
mod laws;
mod making;
mod marks;
mod operators;
mod piece;
mod pieces;
mod spelling;
mod stack;
mod statements;
mod targets;

pub use file::tree;
pub use laws::{files_are_scripts, one_file};
