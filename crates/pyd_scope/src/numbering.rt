//! The cells of a routine, made in one walk in text order.

ghost use Rattle.std.specs.Prelude.{◌≡◌, ◌++◌, length, IfOk, OnOk};
ghost use Rattle.pyd_scope.specs.declared.cells.Origin.TheVariants.{Part};
ghost use Rattle.pyd_scope.specs.declared.cells.Suite.TheVariants.{Body};
ghost use Rattle.std.specs.Option.{option_copied};
ghost use Rattle.pyd_scope.specs.Parting.{direct_of};
ghost use Rattle.pyd_scope.specs.Cells.{cells_of, added, stmts_from, stmt_cells, inner_cells, arms_from, arm_cells, maybe_block, block_cells, header_cells, maybe_header, expression_cells, part_cells, placed, placed_from, bounds_from, suffix_parts};
ghost use Rattle.pyd_scope.specs.Closing.{IsClosed, IsClosedStmt};

use crate::cells::{Columns, ExpressionCell, Origin, StatementCell, Suite};
use crate::parts::{high, low, part, suffixes};
use pyd_tree::{Arm, Block, Expr, Stmt, Suffix, What};
use pyd_value::NoMemory;

/// Puts the cells of a module's statements at the end.
pub fn add_each(stmts: &[&Stmt], out: &mut Columns) -> Result<(), NoMemory>
    ensures { OnOk result (cells_of out.new
        ≡ added (cells_of out.old) (stmts_from (λ s. stmt_cells s.now) Body 0 stmts.now)) }
{
    for (at, stmt) in stmts.iter().enumerate() {
        add_stmt(Suite::Body, number(at)?, stmt, out)?;
    }
    Ok(())
}

/// Puts the cells of a block's statements at the end.
#[cycle(number)]
pub fn add_stmts(suite: Suite, stmts: &[Stmt], out: &mut Columns) -> Result<(), NoMemory>
    ensures { OnOk result (cells_of out.new
        ≡ added (cells_of out.old) (stmts_from stmt_cells suite 0 stmts.now)) }
{
    for (at, stmt) in stmts.iter().enumerate() {
        add_stmt(suite, number(at)?, stmt, out)?;
    }
    Ok(())
}

/// The cells of a statement, and of what stands in it.
#[cycle(number)]
fn add_stmt(suite: Suite, at: u32, stmt: &Stmt, out: &mut Columns) -> Result<(), NoMemory>
    ensures { OnOk result (cells_of out.new
        ≡ added (cells_of out.old) (stmt_cells stmt.now suite at)) }
{
    let place = next(out.statements.as_slice())?;
    let expression = next(out.expressions.as_slice())?;
    out.statements.push(StatementCell {
        suite,
        at,
        expression,
        behind_statement: 0,
        behind_expression: 0,
    })?;
    add_what(place, &stmt.what, out)?;
    close_stmt(place, suite, at, expression, out)
}

/// Puts the cell of a statement at its place again, with where what it has ends.
fn close_stmt(
    place: u32,
    suite: Suite,
    at: u32,
    expression: u32,
    out: &mut Columns,
) -> Result<(), NoMemory>
    ensures { OnOk result
        (IsClosedStmt place suite at expression (cells_of out.old) (cells_of out.new)) }
{
    let behind_statement = next(out.statements.as_slice())?;
    let behind_expression = next(out.expressions.as_slice())?;
    if let Some(cell) = out.statements.get_mut(place as usize) {
        *cell = StatementCell {
            suite,
            at,
            expression,
            behind_statement,
            behind_expression,
        };
    }
    Ok(())
}

/// The cells of what stands in a statement of this number.
#[cycle(number)]
fn add_what(stmt: u32, what: &What, out: &mut Columns) -> Result<(), NoMemory>
    ensures { OnOk result (cells_of out.new
        ≡ added (cells_of out.old) (inner_cells what.now stmt)) }
{
    match what {
        What::Expr(e) | What::Assign(_, e) | What::Aug(_, _, e) => add_header(stmt, 0, e, out),
        What::If(arms, otherwise) => {
            add_arms(stmt, arms.as_slice(), out)?;
            add_otherwise(stmt, otherwise, out)
        }
        What::While(test, body) => {
            add_header(stmt, 0, test, out)?;
            add_block(Suite::LoopBody(stmt), body, out)
        }
        What::For(_, over, body) => {
            add_header(stmt, 0, over, out)?;
            add_block(Suite::LoopBody(stmt), body, out)
        }
        What::Return(value) => add_maybe(stmt, 0, value, out),
        What::Assert(test, message) => {
            add_header(stmt, 0, test, out)?;
            add_maybe(stmt, 1, message, out)
        }
        What::Break | What::Continue | What::Pass => Ok(()),
    }
}

#[cycle(number)]
fn add_arms(stmt: u32, arms: &[Arm], out: &mut Columns) -> Result<(), NoMemory>
    ensures { OnOk result (cells_of out.new
        ≡ added (cells_of out.old) (arms_from arm_cells stmt 0 arms.now)) }
{
    for (at, arm) in arms.iter().enumerate() {
        add_arm(stmt, number(at)?, arm, out)?;
    }
    Ok(())
}

#[cycle(number)]
fn add_arm(stmt: u32, at: u32, arm: &Arm, out: &mut Columns) -> Result<(), NoMemory>
    ensures { OnOk result (cells_of out.new
        ≡ added (cells_of out.old) (arm_cells arm.now stmt at)) }
{
    add_header(stmt, at, &arm.test, out)?;
    add_block(Suite::Arm { stmt, arm: at }, &arm.body, out)
}

#[cycle(number)]
fn add_otherwise(stmt: u32, block: &Option<Block>, out: &mut Columns) -> Result<(), NoMemory>
    ensures { OnOk result (cells_of out.new
        ≡ added (cells_of out.old) (maybe_block block_cells stmt block.now)) }
{
    match block {
        Some(block) => add_block(Suite::Otherwise(stmt), block, out),
        None => Ok(()),
    }
}

#[cycle(number)]
fn add_block(suite: Suite, block: &Block, out: &mut Columns) -> Result<(), NoMemory>
    ensures { OnOk result (cells_of out.new
        ≡ added (cells_of out.old) (block_cells block.now suite)) }
{
    add_stmts(suite, block.stmts.as_slice(), out)
}

/// The cells of an expression in the lines of a statement.
fn add_header(stmt: u32, at: u32, e: &Expr, out: &mut Columns) -> Result<(), NoMemory>
    ensures { OnOk result (cells_of out.new
        ≡ added (cells_of out.old) (header_cells stmt at e.now)) }
{
    add_expression(Origin::Header { stmt, at }, e, &mut out.expressions)
}

fn add_maybe(stmt: u32, at: u32, e: &Option<Expr>, out: &mut Columns) -> Result<(), NoMemory>
    ensures { OnOk result (cells_of out.new
        ≡ added (cells_of out.old) (maybe_header stmt at e.now)) }
{
    match e {
        Some(e) => add_header(stmt, at, e, out),
        None => Ok(()),
    }
}

/// Puts the cells of an expression and of its parts at the end.
#[cycle(number_parts)]
fn add_expression(origin: Origin, e: &Expr, out: &mut Vec<ExpressionCell>) -> Result<(), NoMemory>
    ensures { OnOk result (out.new.items ≡ out.old.items
        ++ expression_cells e.now origin (length out.old.items)) }
{
    let of = next(out.as_slice())?;
    out.push(ExpressionCell { origin, behind: 0 })?;
    add_parts(of, e, out)?;
    add_suffixes(of, suffixes(e), out)?;
    close(of, origin, out)
}

/// Puts the cell of an expression at its place again, with where what it has ends.
fn close(place: u32, origin: Origin, out: &mut Vec<ExpressionCell>) -> Result<(), NoMemory>
    ensures { OnOk result (IsClosed place origin out.old.items out.new.items) }
{
    let behind = next(out.as_slice())?;
    if let Some(cell) = out.get_mut(place as usize) {
        *cell = ExpressionCell { origin, behind };
    }
    Ok(())
}

/// The cells of the parts outside brackets.
#[cycle(number_parts)]
fn add_parts(of: u32, e: &Expr, out: &mut Vec<ExpressionCell>) -> Result<(), NoMemory>
    ensures { OnOk result (out.new.items ≡ out.old.items
        ++ part_cells (placed_from (Part of) 0 (direct_of e.now)) (length out.old.items)) }
{
    for at in 0..u32::MAX {
        match part(e, at) {
            Some(part) => add_expression(Origin::Part { of, at }, part, out)?,
            None => return Ok(()),
        }
    }
    Err(NoMemory)
}

/// The cells of what stands in brackets behind an expression.
#[cycle(number_parts)]
fn add_suffixes(of: u32, suffixes: &[Suffix], out: &mut Vec<ExpressionCell>) -> Result<(), NoMemory>
    ensures { OnOk result (out.new.items ≡ out.old.items
        ++ part_cells (bounds_from suffix_parts of 0 suffixes.now) (length out.old.items)) }
{
    for (at, suffix) in suffixes.iter().enumerate() {
        add_suffix(of, number(at)?, suffix, out)?;
    }
    Ok(())
}

#[cycle(number_parts)]
fn add_suffix(
    of: u32,
    at: u32,
    suffix: &Suffix,
    out: &mut Vec<ExpressionCell>,
) -> Result<(), NoMemory>
    ensures { OnOk result (out.new.items ≡ out.old.items
        ++ part_cells (suffix_parts of at suffix.now) (length out.old.items)) }
{
    add_placed(Origin::Low { of, suffix: at }, low(suffix), out)?;
    add_placed(Origin::High { of, suffix: at }, high(suffix), out)
}

/// The cells of a part that may be missing.
#[cycle(number_parts)]
fn add_placed(
    origin: Origin,
    e: Option<&Expr>,
    out: &mut Vec<ExpressionCell>,
) -> Result<(), NoMemory>
    ensures { OnOk result (out.new.items ≡ out.old.items
        ++ part_cells (placed origin (option_copied e.entry)) (length out.old.items)) }
{
    match e {
        Some(e) => add_expression(origin, e, out),
        None => Ok(()),
    }
}

/// The number of the next cell.
fn next<T>(cells: &[T]) -> Result<u32, NoMemory>
    ensures { IfOk result (λ n. n ≡ length cells.now) }
{
    number(cells.len())
}

/// A number of 32 bits, unless there are too many.
pub fn number(place: usize) -> Result<u32, NoMemory>
    ensures { IfOk result (λ n. n ≡ place) }
{
    u32::try_from(place).map_err(|_| NoMemory)
}
