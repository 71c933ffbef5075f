//! The operators and builtin functions of the profile over values (Python Language Reference,
//! section 6, "Expressions", and the library's "Built-in Functions").
#![tactic(auto)]

mod answer;
mod arithmetic;
mod calls;
mod comparing;
mod extremes;
mod indexing;
mod joining;
mod laws;
mod operators;
mod ranges;
mod sequence;
mod sums;

pub use calls::builtin;
pub use comparing::{compare, contains};
pub use indexing::{Bounds, index, slice};
pub use laws::{
    operations_keep_limits, quotient_and_remainder_go_together, range_counts_to_its_end,
    slice_has_the_items_between, substring_is_a_middle,
};
pub use operators::{binary, unary};
pub use pyd_value::Builtin;
pub use ranges::{Span, range_of};
pub use sequence::{item_at, items};
