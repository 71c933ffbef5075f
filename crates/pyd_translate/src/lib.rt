//! Statements and expressions as nodes of the graph, and what the nodes of a list do.
#![tactic(auto)]

mod arguments;
mod assertions;
mod assignments;
mod at;
mod brackets;
mod calls;
mod choices;
mod composite;
mod context;
mod counting;
mod draft;
mod env;
mod expressions;
mod flow;
mod frames;
mod laws;
mod names;
mod numbers;
mod passages;
mod piece;
mod rows;
mod script;
mod setting;
mod sides;
mod spot;
mod starts;
mod statements;
mod targets;
mod unfold;

pub use arguments::copies;
pub use at::{At, Start};
pub use composite::{Composite, build_last};
pub use context::Context;
pub use draft::{Draft, emit, emit_value, stop_by, value_of};
pub use env::{set_slot, slots_of, take_ports};
pub use expressions::build;
pub use flow::{Exit, Flow};
pub use frames::{add_frames, copy_frame, framed, frames_of};
pub use laws::{
    block_count_law, block_law, block_nested_law, block_order_law, conditional_order_law,
    expression_law, file_items_law, functional_call_law, functional_leaf_law, numbered_items_law,
    routine_count_law, script_law, side_count_law, side_law, side_nested_law, side_order_law,
    start_law, start_within_law, stop_law,
};
pub use piece::Piece;
pub use rows::{and_row, chain_row, comparison_row, conditional_row, slice_row};
pub use script::unfold_script;
pub use setting::{Passage, Point, Setting, inside, past_arms, past_expression};
pub use sides::build_side;
pub use spot::Spot;
pub use starts::build_start;
pub use statements::build_header;
pub use targets::bind_targets;
pub use unfold::{unfold_block, unfold_side};
