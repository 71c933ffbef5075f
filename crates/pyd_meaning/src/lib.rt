//! What a script means, statement after statement, with no graph, task or machine in it.
#![tactic(auto)]

mod call_rows;
mod laws;
mod limits;
mod loop_rows;
mod ran;
mod rows;
mod run_laws;
mod statement_laws;
mod statement_rows;

pub use call_rows::{
    augmented_call_script, call_count_script, call_none_script, call_script, call_unbound_script,
    depth_at_limit_script, depth_past_limit_script, return_in_loop_script,
};
pub use laws::{
    and_law, call_law, chain_law, comparison_law, conditional_law, index_law, literal_law,
    name_law, or_law, power_law, slice_law, suffixed_law, sum_law, tuple_law, unary_law,
    unbound_call_law,
};
pub use limits::{DEFAULT_DEPTH, DEFAULT_TURNS, Limits};
pub use loop_rows::{
    bound_before_fault_script, for_at_limit_script, for_break_script, for_continue_script,
    for_kind_script, for_past_limit_script, for_range_script, for_tuple_script, range_end_script,
    while_at_limit_script, while_break_script, while_false_script, while_loop_script,
    while_past_limit_script,
};
pub use ran::Ran;
pub use rows::{
    and_row, calls_row, chain_row, comparison_row, conditional_row, constant_row, division_row,
    early_fault_row, false_and_row, false_link_row, index_row, len_row, negative_power_row,
    not_row, or_row, power_row, print_fault_row, print_row, slice_row, tuple_row,
    unbound_callee_row, unbound_local_row,
};
pub use run_laws::{
    for_turns_law, function_law, module_law, range_law, read_law, targets_law, while_turns_law,
};
pub use statement_laws::{
    arm_law, assert_law, assignment_law, augmented_law, expression_law, for_law, if_law,
    leaving_law, return_law, statement_law, suite_law, while_law,
};
pub use statement_rows::{
    assert_fails_script, assert_passes_script, assignment_script, augmented_script,
    augmented_unbound_script, elif_fault_script, fault_ends_script, if_elif_script,
    int_limit_script, unbound_branch_script, unpack_count_script, unpack_kind_script,
    unpack_text_script, unpacking_script,
};
