//! The operators of nodes.

use pyd_value::{BinOp, CmpOp, UnOp};

/// What an operator node does with the values of its arguments, in their order.
#[derive(Clone, Copy, Debug, PartialEq, Eq)]
pub enum OpCode {
    Unary(UnOp),
    Binary(BinOp),
    Compare(CmpOp),
    /// The base and the index.
    Index,
    /// The base, and those of the two bounds that are there.
    Slice { low: bool, high: bool },
    Tuple,
    /// One value, whose items become so many ports.
    Unpack(u32),
    Len,
    Abs,
    Min,
    Max,
    Sum,
    Str,
    Repr,
    Int,
    Bool,
    /// Its value is the tuple of the first number, the step and the count.
    Range,
    /// Raises where its argument is false.
    Assert,
}
