//! What the symbols of a derivation are read as.

use crate::stack::Stack;
use pyd_lex::Token;
use pyd_tree::{Arm, BinOp, Block, CmpOp, Expr, Func, Item, Stmt, Suffix};
use pyd_value::{Boxed, List, Text};

/// What a symbol of a derivation is read as.
#[derive(Drop)]
pub enum Piece {
    /// What an optional part that is missing is read as.
    Nothing,
    Leaf(Boxed<Token>),
    Expr(Boxed<Expr>),
    /// Expressions that commas or one operator divide.
    Many(Stack<Expr>),
    /// Arguments in parentheses.
    Args(List<Expr>),
    Links(Stack<(BinOp, Expr)>),
    Compares(Stack<(CmpOp, Expr)>),
    /// The test and the other value of a conditional expression.
    Condition {
        test: Boxed<Expr>,
        no: Boxed<Expr>,
    },
    Suffix(Boxed<Suffix>),
    Suffixes(Stack<Suffix>),
    /// The upper bound of a slice.
    Bound(Option<Boxed<Expr>>),
    /// The right side of an assignment.
    Assign(Boxed<Expr>),
    /// The operator and the right side of an augmented assignment.
    Augment {
        op: BinOp,
        right: Boxed<Expr>,
    },
    Stmt(Boxed<Stmt>),
    Stmts(Stack<Stmt>),
    Suite(Block),
    Arms(Stack<Arm>),
    Names(Stack<Text>),
    Params(Stack<(u32, Text)>),
    /// A function, and its decorators apart from it.
    Def {
        marks: Boxed<Stack<(u32, Text)>>,
        func: Boxed<Func>,
    },
    Item(Boxed<Item>),
    Items(Stack<Item>),
}

// A source of brackets has fourteen pieces for each pair at once, so what is wide lies in a box.
const _: () = prove!(size_of::<Piece>() == 32);
