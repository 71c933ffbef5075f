//! Expressions (Python Language Reference, section 6).

use pyd_value::{BinOp, Boxed, CmpOp, List, Text, UnOp, Value};

/// An expression.
#[cycle(expr)]
#[derive(Drop)]
pub enum Expr {
    Lit(Value),
    Name(Text),
    Tuple(List<Expr>),
    Unary(UnOp, Boxed<Expr>),
    /// An operand, and operators of one level with their right operands, read from the left.
    Chain(Boxed<Expr>, List<(BinOp, Expr)>),
    /// The base and the exponent.
    Power(Boxed<Expr>, Boxed<Expr>),
    And(List<Expr>),
    Or(List<Expr>),
    /// An operand, and comparisons with their right operands.
    Compare(Boxed<Expr>, List<(CmpOp, Expr)>),
    /// The test, the value where it is true, and the value where it is false.
    If(Boxed<Expr>, Boxed<Expr>, Boxed<Expr>),
    Call(Text, List<Expr>),
    Suffixed(Boxed<Expr>, List<Suffix>),
}

/// What stands in brackets behind an expression.
#[cycle(expr)]
#[derive(Drop)]
pub enum Suffix {
    Index(Expr),
    /// The lower and the upper bound.
    Slice(Option<Expr>, Option<Expr>),
}
