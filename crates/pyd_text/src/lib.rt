//! The texts of values, and the integers of texts (Python Standard Library, "Built-in Functions").
#![tactic(auto)]

mod answer;
mod calls;
mod laws;
mod measuring;
mod numerals;
mod quoting;
mod texts;
mod writing;

pub use calls::text_builtin;
pub use laws::{
    int_reads_what_str_writes, line_is_its_text, quotes_and_escapes, repr_goes_by_kind,
    str_goes_by_kind, texts_keep_limits,
};
pub use numerals::int_of;
pub use texts::{line_of, repr_of, str_of};
pub use writing::write_repr;
