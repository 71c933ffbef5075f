//! The nodes of the graph, the jobs that workers do for them, and what these give.
#![tactic(auto)]

mod answer;
mod arg;
mod code;
mod doing;
mod done;
mod job;
mod laws;
mod making;
mod node;
mod operation;
mod work;

pub use arg::{Arg, Ref};
pub use code::OpCode;
pub use doing::run_op;
pub use done::{Done, done_law};
pub use job::{Job, Task};
pub use laws::{
    assert_law, call_law, composite_law, effect_law, look_law, operator_law, operators_keep_limits,
    read_law, slice_law, unpack_law,
};
pub use node::{Chain, Node, Past};
pub use work::{Frame, Rest, Side, Work};
