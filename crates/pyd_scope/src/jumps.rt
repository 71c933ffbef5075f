//! Where `return`, `break` and `continue` stand (Python Language Reference, sections 7.6, 7.9, 7.10).
ghost use Rattle.std.specs.Prelude.{◌≡◌, map, option_map};
ghost use Rattle.pyd_names.specs.Binding.{joined, or_empty};
ghost use Rattle.pyd_scope.specs.Least.{least};
ghost use Rattle.pyd_scope.specs.Leaving as spec;
ghost use Rattle.pyd_scope.specs.Rules as rule;

use crate::least::lesser;
use pyd_tree::{Arm, Block, File, Item, Stmt, What};

/// What leaves a routine, or a turn of a loop.
#[derive(Clone, Copy)]
pub enum Jump {
    Return,
    /// `break` and `continue`, in no loop of what is looked through.
    Break,
}

/// The least line of such a jump in a statement.
#[cycle(jumps)]
pub fn least_jump(jump: Jump, stmt: &Stmt) -> Option<u32>
    ensures { result ≡ least (spec.jumps jump stmt.now) }
{
    match &stmt.what {
        What::If(arms, otherwise) => lesser(
            jump_in_arms(jump, arms.as_slice()),
            jump_in_else(jump, otherwise),
        ),
        What::While(_, body) | What::For(_, _, body) => match jump {
            Jump::Return => jump_in_block(jump, body),
            Jump::Break => None,
        },
        What::Return(_) => match jump {
            Jump::Return => Some(stmt.line),
            Jump::Break => None,
        },
        What::Break | What::Continue => match jump {
            Jump::Return => None,
            Jump::Break => Some(stmt.line),
        },
        What::Expr(_) | What::Assign(_, _) | What::Aug(_, _, _) | What::Pass | What::Assert(_, _) =>
            None,
    }
}

/// The least line of such a jump in a suite.
#[cycle(jumps)]
pub fn jump_in_block(jump: Jump, block: &Block) -> Option<u32>
    ensures { result ≡ least (spec.jumps_in_block jump block.now) }
{
    let mut line = None;
    for stmt in block.stmts.as_slice() {
        line = lesser(line, least_jump(jump, stmt));
    }
    line
}

#[cycle(jumps)]
fn jump_in_arms(jump: Jump, arms: &[Arm]) -> Option<u32>
    ensures { result ≡ least (joined (map (spec.jumps_in_arm jump) arms.now)) }
{
    let mut line = None;
    for arm in arms {
        line = lesser(line, jump_in_block(jump, &arm.body));
    }
    line
}

#[cycle(jumps)]
fn jump_in_else(jump: Jump, otherwise: &Option<Block>) -> Option<u32>
    ensures { result ≡ least (or_empty (option_map (spec.jumps_in_block jump) otherwise.now)) }
{
    match otherwise {
        Some(body) => jump_in_block(jump, body),
        None => None,
    }
}

/// The least line of a `return` in the module.
pub fn return_outside(file: &File) -> Option<u32>
    ensures { result ≡ least (rule.return_outside file.now) }
{
    let mut line = None;
    for item in file.items.as_slice() {
        line = lesser(line, returns_in_item(item));
    }
    line
}

fn returns_in_item(item: &Item) -> Option<u32>
    ensures { result ≡ least (rule.returns_outside item.now) }
{
    match item {
        Item::Import(_, _, _) | Item::Def(_) => None,
        Item::Stmt(stmt) => least_jump(Jump::Return, stmt),
    }
}

/// The least line of a `break` or `continue` in no loop.
pub fn break_outside(file: &File) -> Option<u32>
    ensures { result ≡ least (rule.break_outside file.now) }
{
    let mut line = None;
    for item in file.items.as_slice() {
        line = lesser(line, breaks_in_item(item));
    }
    line
}

fn breaks_in_item(item: &Item) -> Option<u32>
    ensures { result ≡ least (rule.breaks_outside item.now) }
{
    match item {
        Item::Import(_, _, _) => None,
        Item::Def(func) => jump_in_block(Jump::Break, &func.body),
        Item::Stmt(stmt) => least_jump(Jump::Break, stmt),
    }
}
