//! The names that statements read and call.
ghost use Rattle.std.specs.Prelude.{◌≡◌, [], ◌∷◌, ◌++◌, IfOk, OnOk};
ghost use Rattle.std.specs.List.{flat_map};
ghost use Rattle.pyd_names.specs.Uses as spec;

use crate::expression_use::{add_expression, add_maybe};
use pyd_tree::{Arm, Block, Expr, Stmt, What};
use pyd_value::{List, NoMemory, Text};
use std::alloc::Global;

/// How a name is used.
#[derive(Clone, Copy, Debug, PartialEq, Eq)]
pub enum Manner {
    /// Its value is read.
    Read,
    /// It is called, anywhere but as `Iterated` says.
    Called,
    /// It is called, and the call is the whole iterable of a `for`.
    Iterated,
}

/// A name that is used, and the line of the statement or header that it stands in.
#[derive(Debug, Drop)]
pub struct NameUse {
    pub line: u32,
    pub name: Text,
    pub manner: Manner,
}

/// The uses in a block, in text order.
pub fn uses(alloc: Global, block: &Block) -> Result<List<NameUse>, NoMemory>
    ensures { IfOk result (λ list. list ≡ spec.uses block.now) }
{
    let mut out = List::new(alloc);
    add_block(block, &mut out)?;
    Ok(out)
}

/// The uses in a statement, in text order.
pub fn statement_uses(alloc: Global, stmt: &Stmt) -> Result<List<NameUse>, NoMemory>
    ensures { IfOk result (λ list. list ≡ spec.statement_uses stmt.now) }
{
    let mut out = List::new(alloc);
    add_statement(stmt, &mut out)?;
    Ok(out)
}

/// Puts the uses in a block at the end.
#[cycle(use_names)]
fn add_block(block: &Block, out: &mut List<NameUse>) -> Result<(), NoMemory>
    ensures { OnOk result (out.new ≡ out.old ++ spec.uses block.now) }
{
    for stmt in block.stmts.as_slice() {
        add_statement(stmt, out)?;
    }
    Ok(())
}

/// Puts the uses in a statement at the end.
#[cycle(use_names)]
pub(crate) fn add_statement(stmt: &Stmt, out: &mut List<NameUse>) -> Result<(), NoMemory>
    ensures { OnOk result (out.new ≡ out.old ++ spec.statement_uses stmt.now) }
{
    add_what(&stmt.what, stmt.line, out)
}

#[cycle(use_names)]
fn add_what(what: &What, line: u32, out: &mut List<NameUse>) -> Result<(), NoMemory>
    ensures { OnOk result (out.new ≡ out.old ++ spec.what_uses what.now line) }
{
    match what {
        What::Expr(e) | What::Assign(_, e) => add_expression(e, line, Manner::Called, out),
        What::Aug(name, _, e) => add_augmented(name, e, line, out),
        What::If(arms, otherwise) => {
            add_arms(arms.as_slice(), out)?;
            add_otherwise(otherwise, out)
        }
        What::While(test, body) => {
            add_expression(test, line, Manner::Called, out)?;
            add_block(body, out)
        }
        What::For(_, over, body) => {
            add_expression(over, line, Manner::Iterated, out)?;
            add_block(body, out)
        }
        What::Return(value) => add_maybe(value, line, out),
        What::Assert(test, message) => {
            add_expression(test, line, Manner::Called, out)?;
            add_maybe(message, line, out)
        }
        What::Break | What::Continue | What::Pass => Ok(()),
    }
}

#[cycle(use_names)]
fn add_arms(arms: &[Arm], out: &mut List<NameUse>) -> Result<(), NoMemory>
    ensures { OnOk result (out.new ≡ out.old ++ flat_map spec.arm_uses arms.now) }
{
    for arm in arms {
        add_expression(&arm.test, arm.line, Manner::Called, out)?;
        add_block(&arm.body, out)?;
    }
    Ok(())
}

/// The suite of an `else`, if there is one.
#[cycle(use_names)]
fn add_otherwise(block: &Option<Block>, out: &mut List<NameUse>) -> Result<(), NoMemory>
    ensures { OnOk result (out.new ≡ out.old ++ spec.otherwise_uses block.now) }
{
    match block {
        Some(block) => add_block(block, out),
        None => Ok(()),
    }
}

/// An augmented assignment reads its name before its right side is evaluated.
fn add_augmented(
    name: &Text,
    right: &Expr,
    line: u32,
    out: &mut List<NameUse>,
) -> Result<(), NoMemory>
    ensures { OnOk result (out.new ≡ out.old ++ spec.augmented_uses line name.now right.now) }
{
    add_name(name, line, Manner::Read, out)?;
    add_expression(right, line, Manner::Called, out)
}

/// Puts a name at the end.
pub(crate) fn add_name(
    name: &Text,
    line: u32,
    manner: Manner,
    out: &mut List<NameUse>,
) -> Result<(), NoMemory>
    ensures { OnOk result (out.new ≡ out.old ++ spec.used line name.now manner ∷ []) }
{
    let name = name.try_clone()?;
    out.add(NameUse { line, name, manner })
}
