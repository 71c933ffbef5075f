//! The nodes that take the place of a composite, and what refining keeps.
#![tactic(auto)]

mod composite;
mod cond;
mod enter;
mod item;
mod laws;
mod pick;
mod stop;
mod turn;

pub use composite::refine;
pub use laws::{
    found_law, piece_law, piece_order_law, piece_ports_law, ready_law, refine_law,
    refined_ports_law, rule_laws, substitution_law, supply_law,
};
