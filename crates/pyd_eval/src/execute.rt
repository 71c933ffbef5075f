//! Statements (Python Language Reference, sections 7 and 8).
ghost use Rattle.std.specs.Prelude.{◌≡◌, ◌∷◌, [], map, option_map, IfOk};
ghost use Rattle.std.specs.List.{flat_map};
ghost use Rattle.pyd_tree.specs.declared.statement.What.TheVariants as what;
ghost use Rattle.pyd_names.specs.Binding as binding;
ghost use Rattle.pyd_meaning.specs.Statement as statement;
ghost use Rattle.pyd_eval.specs.Frames.{execution, suite_execution, names_of, setting, Holds};
ghost use Rattle.pyd_eval.specs.Given.{Does};
ghost use Rattle.pyd_eval.specs.Left.{reached};
ghost use Rattle.pyd_eval.specs.Steps.{does_what, does_arms, augmented_value, failure};

use crate::activation::Activation;
use crate::binding::{assign, bind};
use crate::completion::Completion;
use crate::evaluate::eval;
use crate::got::Got;
use crate::loops::{exec_for, exec_while};
use crate::operate::apply;
use crate::reading::read;
use pyd_tree::{Arm, Block, Expr, Stmt, Targets, What};
use pyd_value::{BinOp, Fault, Kind, List, NoMemory, Text, Value};

/// The statements of a suite, until one isn't left normally.
#[cycle(run)]
pub(crate) fn exec_block(
    on: &Activation<'_>,
    block: &Block,
    slots: &mut [Option<Value>],
    out: &mut List<Text>,
) -> Result<Result<Completion, Fault>, NoMemory>
    requires { Holds on.now slots.old (binding.names_of (binding.bindings block.now)) }
    ensures { IfOk result (λ how.
        Does out.old (suite_execution on.now block.now slots.old) out.new
        (reached (names_of on.now slots.new) how)) }
{
    for stmt in block.stmts.as_slice() {
        match exec_stmt(on, stmt, slots, out)? {
            Ok(Completion::Normal) => {}
            Ok(Completion::Break) => return Ok(Ok(Completion::Break)),
            Ok(Completion::Continue) => return Ok(Ok(Completion::Continue)),
            Ok(Completion::Return(v)) => return Ok(Ok(Completion::Return(v))),
            Err(fault) => return Ok(Err(fault)),
        }
    }
    Ok(Ok(Completion::Normal))
}

/// One statement.
#[cycle(run)]
pub(crate) fn exec_stmt(
    on: &Activation<'_>,
    stmt: &Stmt,
    slots: &mut [Option<Value>],
    out: &mut List<Text>,
) -> Result<Result<Completion, Fault>, NoMemory>
    requires { Holds on.now slots.old (binding.names_of (binding.statement_bindings stmt.now)) }
    ensures { IfOk result (λ how.
        Does out.old (execution on.now stmt.now slots.old) out.new
        (reached (names_of on.now slots.new) how)) }
{
    let line = stmt.line;
    match &stmt.what {
        What::Expr(e) => exec_expression(on, e, line, slots, out),
        What::Assign(targets, e) => exec_assign(on, targets, e, line, slots, out),
        What::Aug(name, op, e) => exec_augmented(on, name, *op, e, line, slots, out),
        What::If(arms, otherwise) => exec_if(on, arms.as_slice(), otherwise, slots, out),
        What::While(test, body) => exec_while(on, test, body, line, slots, out),
        What::For(targets, e, body) => exec_for(on, targets, e, body, line, slots, out),
        What::Return(value) => exec_return(on, value, line, slots, out),
        What::Break => Ok(Ok(Completion::Break)),
        What::Continue => Ok(Ok(Completion::Continue)),
        What::Pass => Ok(Ok(Completion::Normal)),
        What::Assert(test, message) => exec_assert(on, test, message, line, slots, out),
    }
}

/// An expression, whose value is dropped.
#[cycle(run)]
fn exec_expression(
    on: &Activation<'_>,
    e: &Expr,
    line: u32,
    slots: &mut [Option<Value>],
    out: &mut List<Text>,
) -> Result<Result<Completion, Fault>, NoMemory>
    ensures same { slots.new ≡ slots.old }
    ensures does { IfOk result (λ how.
        Does out.old (does_what on.now (what.Expr e.now) line slots.old) out.new
        (reached (names_of on.now slots.new) how)) }
{
    match eval(on, e, line, slots, out)? {
        Ok(value) => {
            drop(value);
            Ok(Ok(Completion::Normal))
        }
        Err(fault) => Ok(Err(fault)),
    }
}

/// The right side, and then its targets.
#[cycle(run)]
fn exec_assign(
    on: &Activation<'_>,
    targets: &Targets,
    e: &Expr,
    line: u32,
    slots: &mut [Option<Value>],
    out: &mut List<Text>,
) -> Result<Result<Completion, Fault>, NoMemory>
    requires { Holds on.now slots.old targets.now.names }
    ensures { IfOk result (λ how.
        Does out.old (does_what on.now (what.Assign targets.now e.now) line slots.old) out.new
        (reached (names_of on.now slots.new) how)) }
{
    match eval(on, e, line, slots, out)? {
        Ok(value) => {
            let value = value.into_value(on.alloc)?;
            match assign(on, slots, targets, value, line)? {
                Ok(()) => Ok(Ok(Completion::Normal)),
                Err(fault) => Ok(Err(fault)),
            }
        }
        Err(fault) => Ok(Err(fault)),
    }
}

/// The name, the right side, the operator, and then the name again.
#[cycle(run)]
fn exec_augmented(
    on: &Activation<'_>,
    name: &Text,
    op: BinOp,
    e: &Expr,
    line: u32,
    slots: &mut [Option<Value>],
    out: &mut List<Text>,
) -> Result<Result<Completion, Fault>, NoMemory>
    requires { Holds on.now slots.old (name.now ∷ []) }
    ensures { IfOk result (λ how.
        Does out.old (does_what on.now (what.Aug name.now op e.now) line slots.old) out.new
        (reached (names_of on.now slots.new) how)) }
{
    match eval_augmented(on, name, op, e, line, slots, out)? {
        Ok(value) => {
            bind(on, slots, name, value);
            Ok(Ok(Completion::Normal))
        }
        Err(fault) => Ok(Err(fault)),
    }
}

/// What an augmented assignment binds.
#[cycle(run)]
fn eval_augmented(
    on: &Activation<'_>,
    name: &Text,
    op: BinOp,
    e: &Expr,
    line: u32,
    slots: &[Option<Value>],
    out: &mut List<Text>,
) -> Result<Result<Value, Fault>, NoMemory>
    ensures { IfOk result (λ got.
        Does out.old (augmented_value on.now name.now op e.now line slots.now) out.new got) }
{
    match read(on, name, line, slots) {
        Ok(left) => match eval(on, e, line, slots, out)? {
            Ok(right) => match apply(on.alloc, op, left, right, line)? {
                Ok(value) => Ok(Ok(value.into_value(on.alloc)?)),
                Err(fault) => Ok(Err(fault)),
            },
            Err(fault) => Ok(Err(fault)),
        },
        Err(fault) => Ok(Err(fault)),
    }
}

/// The first arm whose test is true, else the suite of `else`.
#[cycle(run)]
fn exec_if(
    on: &Activation<'_>,
    arms: &[Arm],
    otherwise: &Option<Block>,
    slots: &mut [Option<Value>],
    out: &mut List<Text>,
) -> Result<Result<Completion, Fault>, NoMemory>
    requires arms { Holds on.now slots.old
        (binding.names_of (flat_map binding.arm_bindings arms.now)) }
    requires otherwise { Holds on.now slots.old
        (binding.names_of (binding.otherwise_bindings otherwise.now)) }
    ensures { IfOk result (λ how.
        Does out.old (does_arms on.now arms.now otherwise.now slots.old) out.new
        (reached (names_of on.now slots.new) how)) }
{
    for arm in arms {
        match eval(on, &arm.test, arm.line, slots, out)? {
            Ok(value) => {
                if value.is_true() {
                    return exec_block(on, &arm.body, slots, out);
                }
            }
            Err(fault) => return Ok(Err(fault)),
        }
    }
    match otherwise {
        Some(block) => exec_block(on, block, slots, out),
        None => Ok(Ok(Completion::Normal)),
    }
}

/// The value that a routine gives, None where none is written.
#[cycle(run)]
fn exec_return(
    on: &Activation<'_>,
    value: &Option<Expr>,
    line: u32,
    slots: &mut [Option<Value>],
    out: &mut List<Text>,
) -> Result<Result<Completion, Fault>, NoMemory>
    ensures same { slots.new ≡ slots.old }
    ensures does { IfOk result (λ how.
        Does out.old (does_what on.now (what.Return value.now) line slots.old) out.new
        (reached (names_of on.now slots.new) how)) }
{
    let Some(e) = value else {
        return Ok(Ok(Completion::Return(Value::None)));
    };
    match eval(on, e, line, slots, out)? {
        Ok(value) => Ok(Ok(Completion::Return(value.into_value(on.alloc)?))),
        Err(fault) => Ok(Err(fault)),
    }
}

/// The test, and where it is false the message and then the exception.
#[cycle(run)]
fn exec_assert(
    on: &Activation<'_>,
    test: &Expr,
    message: &Option<Expr>,
    line: u32,
    slots: &mut [Option<Value>],
    out: &mut List<Text>,
) -> Result<Result<Completion, Fault>, NoMemory>
    ensures same { slots.new ≡ slots.old }
    ensures does { IfOk result (λ how.
        Does out.old (does_what on.now (what.Assert test.now message.now) line slots.old) out.new
        (reached (names_of on.now slots.new) how)) }
{
    match eval(on, test, line, slots, out)? {
        Ok(value) => {
            if value.is_true() {
                return Ok(Ok(Completion::Normal));
            }
        }
        Err(fault) => return Ok(Err(fault)),
    }
    fail(on, message, line, slots, out)
}

/// The message of an `assert` that failed, and then its exception.
#[cycle(run)]
fn fail(
    on: &Activation<'_>,
    message: &Option<Expr>,
    line: u32,
    slots: &[Option<Value>],
    out: &mut List<Text>,
) -> Result<Result<Completion, Fault>, NoMemory>
    ensures { IfOk result (λ how.
        Does out.old (failure on.now message.now line slots.now) out.new
        (reached (names_of on.now slots.now) how)) }
{
    let Some(e) = message else {
        return Ok(Err(Fault::Raised(Kind::AssertionError, line)));
    };
    match eval(on, e, line, slots, out)? {
        Ok(value) => {
            drop(value);
            Ok(Err(Fault::Raised(Kind::AssertionError, line)))
        }
        Err(fault) => Ok(Err(fault)),
    }
}
