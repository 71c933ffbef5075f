//! What the index keeps of each statement and expression of a routine.

/// What an expression is a part of, by numbers of the routine.
#[derive(Clone, Copy)]
pub enum Origin {
    /// Of the lines of a statement: of an `if` the test of each arm, of an `assert` the test and
    /// then the message, of any other the one expression.
    Header { stmt: u32, at: u32 },
    /// Of an expression, by its place in the text among the parts outside brackets.
    Part { of: u32, at: u32 },
    /// The index or the lower bound in the brackets behind an expression.
    Low { of: u32, suffix: u32 },
    /// The upper bound in such brackets.
    High { of: u32, suffix: u32 },
}

/// Whose statements a block has.
#[derive(Clone, Copy)]
pub enum Suite {
    /// The routine's.
    Body,
    /// Those of an arm of an `if`.
    Arm { stmt: u32, arm: u32 },
    /// Those of an `else`.
    Otherwise(u32),
    /// Those of a loop.
    LoopBody(u32),
}

/// An expression: what it is a part of, and the number behind it and its parts.
#[derive(Clone, Copy)]
pub struct ExpressionCell {
    pub origin: Origin,
    pub behind: u32,
}

/// A statement: its block and its place there, and the numbers of the first expression in it and of
/// what stands behind it.
#[derive(Clone, Copy)]
pub struct StatementCell {
    pub suite: Suite,
    pub at: u32,
    pub expression: u32,
    pub behind_statement: u32,
    pub behind_expression: u32,
}

/// The cells of a routine by their numbers.
#[derive(Drop)]
pub struct Columns {
    pub statements: Vec<StatementCell>,
    pub expressions: Vec<ExpressionCell>,
}
