//! Whole files: imports, functions and the module's own statements.

use crate::{Block, Stmt};
use pyd_value::{List, Text};

/// A script, item after item in text order.
#[derive(Drop)]
pub struct File {
    pub items: List<Item>,
}

/// An item of a file.
#[derive(Drop)]
pub enum Item {
    /// The line, the module and the names.
    Import(u32, Text, List<Text>),
    Def(Func),
    Stmt(Stmt),
}

/// A function, with the line of the word `def`.
#[derive(Drop)]
pub struct Func {
    pub line: u32,
    pub name: Text,
    /// Its decorators, each with its line.
    pub marks: List<(u32, Text)>,
    /// Its parameters, each with its line.
    pub params: List<(u32, Text)>,
    pub body: Block,
}
