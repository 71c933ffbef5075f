//! Statements (Python Language Reference, sections 7 and 8).

use crate::Expr;
use pyd_value::{BinOp, List, Text};

/// The statements of one suite.
#[cycle(block)]
#[derive(Drop)]
pub struct Block {
    pub stmts: List<Stmt>,
}

/// A statement, with the line of its first token.
#[cycle(block)]
#[derive(Drop)]
pub struct Stmt {
    pub line: u32,
    pub what: What,
}

/// A test with its suite, and the line of its header.
#[cycle(block)]
#[derive(Drop)]
pub struct Arm {
    pub line: u32,
    pub test: Expr,
    pub body: Block,
}

/// The names that an assignment or a `for` binds. A comma makes them a tuple.
#[derive(Drop)]
pub struct Targets {
    pub names: List<Text>,
    pub tuple: bool,
}

/// What a statement does.
#[cycle(block)]
#[derive(Drop)]
pub enum What {
    Expr(Expr),
    Assign(Targets, Expr),
    /// The name, the operator before `=`, and the right side.
    Aug(Text, BinOp, Expr),
    /// The arms of `if` and `elif`, and the suite of `else`.
    If(List<Arm>, Option<Block>),
    While(Expr, Block),
    For(Targets, Expr, Block),
    Return(Option<Expr>),
    Break,
    Continue,
    Pass,
    /// The test and the message.
    Assert(Expr, Option<Expr>),
}
