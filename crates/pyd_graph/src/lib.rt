//! Nodes of the graph as text, and the graph of a script.
#![tactic(auto)]

mod arguments;
mod names;
mod script;
mod write;

pub use script::graph_text;
pub use write::nodes_text;

#[cfg(test)]
mod tests;
