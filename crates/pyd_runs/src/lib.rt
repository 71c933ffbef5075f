//! Runs of a script over machines that are lost: which events may come, what they do, and what is promised of every run.
#![tactic(auto)]

mod bounds;
mod callees;
mod choices;
mod claims;
mod deciding;
mod facts;
mod following;
mod head_order;
mod heads;
mod laws;
mod next_losses;
mod releases;
mod rows;

pub use bounds::{
    event_count_law, head_steps_law, loss_count_law, made_count_law, node_count_law,
    onward_bound_law, run_bound_law,
};
pub use callees::{callee_law, kept_callee_law, leave_law, silent_law};
pub use choices::{choices_law, distinct_law};
pub use claims::{hold_law, kept_seat_law, let_go_law, own_law, seat_law, since_law, take_law};
pub use deciding::{place_test_law, refine_test_law, settle_test_law, trim_test_law};
pub use facts::{
    claimed_law, desk_law, finished_law, in_order_law, number_law, output_law, ticket_law,
};
pub use following::{beginning_law, journal_law, spared_law, step_law, trimmed_law, trims_law};
pub use head_order::{head_order_law, next_law, next_order_law};
pub use heads::{head_law, record_law};
pub use laws::{
    again_law, bar_law, claim_law, drop_law, end_law, event_law, finish_law, lose_law, loss_law,
    need_law, once_law, place_law, prefix_law, progress_law, promise_law, reach_law, refine_law,
    run_law, settle_law, sight_law, steps_law, trim_law,
};
pub use next_losses::{due_law, left_law, loss_seat_law, only_due_law};
pub use releases::{place_apart_law, release_law, ticket_stays_law};
pub use rows::{
    at_once_row, in_turn_row, lost_in_claim_row, lost_when_done_row, only_loss_row,
    second_first_row,
};
