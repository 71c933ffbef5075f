//! The syntax tree of a script (Python Language Reference, sections 6 to 10). Parentheses leave no trace in it.
#![tactic(auto)]

mod depth;
mod expression;
mod file;
mod laws;
mod statement;

pub use depth::nesting;
pub use expression::{Expr, Suffix};
pub use file::{File, Func, Item};
pub use laws::nesting_goes_by_kind;
pub use pyd_value::{BinOp, CmpOp, UnOp};
pub use statement::{Arm, Block, Stmt, Targets, What};
