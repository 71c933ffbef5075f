//! What a script binds and uses: its bindings, constants, functions and locals, what its names stand for, and where they are used.
#![tactic(auto)]

mod binding;
mod builtins;
mod expression_use;
mod laws;
mod line;
mod literals;
mod locals;
mod module;
mod name_use;
mod once;

pub use binding::{Binding, bindings, statement_bindings};
pub use builtins::builtin_named;
pub use laws::{
    bindings_go_by_kind, constants_are_bound_once, distinct_names_are_the_names, forms_go_by_kind,
    literals_go_by_kind, names_resolve_by_rule, parts_go_by_kind, uses_go_by_kind,
};
pub use line::{constants_may_follow, is_literal_assignment, is_string_line, plain_assignment};
pub use literals::{is_literal, literal};
pub use locals::{distinct, function_locals, module_variables};
pub use module::{
    constant_marks, constants, functions, module_bindings, module_statements, module_uses,
};
pub use name_use::{Manner, NameUse, statement_uses, uses};
