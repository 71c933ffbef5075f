//! Calls (Python Language Reference, section 6.3.4): the callee's name, its arguments, the call.
ghost use Rattle.std.specs.Prelude.{◌≡◌, map, IfOk, Some};
ghost use Rattle.pyd_tree.specs.declared.expression.Expr.TheVariants as expression;
ghost use Rattle.pyd_meaning.specs.Reference.{Defined, Given, Uncallable};
ghost use Rattle.pyd_eval.specs.Calls as spec;
ghost use Rattle.pyd_eval.specs.Frames.{evaluation, setting};
ghost use Rattle.pyd_eval.specs.Given.{seen, Does};
ghost use Rattle.pyd_eval.specs.Passed.{values_in};

use crate::activation::Activation;
use crate::arguments::{eval_all, eval_arguments};
use crate::builtins::call_builtin;
use crate::execute::exec_block;
use crate::got::{Got, owned};
use crate::reading::read;
use crate::slots::fill;
use pyd_scope::Use;
use pyd_tree::{Expr, Func};
use pyd_value::{Builtin, Fault, Kind, Limit, List, NoMemory, Text, Value};

#[cycle(run)]
pub(crate) fn eval_call<'p: 'a, 'a>(
    on: &Activation<'p>,
    name: &'a Text,
    args: &'a [Expr],
    line: u32,
    slots: &'a [Option<Value>],
    out: &mut List<Text>,
) -> Result<Result<Got<'a>, Fault>, NoMemory>
    ensures { IfOk result (λ got.
        Does out.old (evaluation on.now (expression.Call name.now args.now) line slots.now)
        out.new (seen got)) }
{
    match on.program.resolve(on.routine, name) {
        Use::Routine(routine) => eval_function_call(on, routine, args, line, slots, out),
        Use::Builtin(builtin) => eval_builtin_call(on, builtin, args, line, slots, out),
        Use::Slot(_) | Use::Constant(_) | Use::Imported | Use::Variable | Use::Unbound => {
            match read(on, name, line, slots) {
                Ok(value) => {
                    drop(value);
                    eval_uncallable(on, args, line, slots, out)
                }
                Err(fault) => Ok(Err(fault)),
            }
        }
    }
}

/// A call of a function.
#[cycle(run)]
fn eval_function_call<'p: 'a, 'a>(
    on: &Activation<'p>,
    routine: u32,
    args: &'a [Expr],
    line: u32,
    slots: &'a [Option<Value>],
    out: &mut List<Text>,
) -> Result<Result<Got<'a>, Fault>, NoMemory>
    ensures { IfOk result (λ got.
        Does out.old (spec.does_call on.now (Defined routine) args.now line slots.now) out.new
        (seen got)) }
{
    match eval_arguments(on, args, line, slots, out)? {
        Ok(taken) => {
            let got = call_function(on, routine, taken, line, out)?;
            Ok(owned(got))
        }
        Err(fault) => Ok(Err(fault)),
    }
}

/// A call of a builtin function.
#[cycle(run)]
fn eval_builtin_call<'p: 'a, 'a>(
    on: &Activation<'p>,
    builtin: Builtin,
    args: &'a [Expr],
    line: u32,
    slots: &'a [Option<Value>],
    out: &mut List<Text>,
) -> Result<Result<Got<'a>, Fault>, NoMemory>
    ensures { IfOk result (λ got.
        Does out.old (spec.does_call on.now (Given builtin) args.now line slots.now) out.new
        (seen got)) }
{
    match eval_all(on, args, line, slots, out)? {
        Ok(values) => call_builtin(on.alloc, builtin, values, line, out),
        Err(fault) => Ok(Err(fault)),
    }
}

/// A call of a value that is no function: its arguments are evaluated all the same.
#[cycle(run)]
fn eval_uncallable<'p: 'a, 'a>(
    on: &Activation<'p>,
    args: &'a [Expr],
    line: u32,
    slots: &'a [Option<Value>],
    out: &mut List<Text>,
) -> Result<Result<Got<'a>, Fault>, NoMemory>
    ensures { IfOk result (λ got.
        Does out.old (spec.does_call on.now Uncallable args.now line slots.now) out.new
        (seen got)) }
{
    match eval_all(on, args, line, slots, out)? {
        Ok(values) => {
            drop(values);
            Ok(Err(Fault::Raised(Kind::TypeError, line)))
        }
        Err(fault) => Ok(Err(fault)),
    }
}

/// A call whose arguments lie in the first slots of the function: the count of them, the depth, and
/// then the body.
#[cycle(run)]
pub(crate) fn call_function(
    on: &Activation<'_>,
    routine: u32,
    taken: Vec<Option<Value>>,
    line: u32,
    out: &mut List<Text>,
) -> Result<Result<Value, Fault>, NoMemory>
    requires { taken.items ≡ map Some (values_in taken.items) }
    ensures { IfOk result (λ got.
        Does out.old ((setting on.now).calls routine (values_in taken.items) line) out.new got) }
{
    let Some(func) = on.function(routine) else {
        return Ok(Err(Fault::Raised(Kind::NameError, line)));
    };
    if taken.len() != func.params.len() {
        return Ok(Err(Fault::Raised(Kind::TypeError, line)));
    }
    if on.depth >= on.limits.depth {
        return Ok(Err(Fault::Limit(Limit::Depth, line)));
    }
    run_function(on, routine, func, taken, out)
}

/// The body of a function, one deeper.
#[cycle(run)]
fn run_function(
    on: &Activation<'_>,
    routine: u32,
    func: &Func,
    taken: Vec<Option<Value>>,
    out: &mut List<Text>,
) -> Result<Result<Value, Fault>, NoMemory>
    requires { spec.IsEntered on.now routine func.now taken.items }
    ensures { IfOk result (λ got.
        spec.DoesCall on.now routine (values_in taken.items) out.old out.new got) }
{
    let callee = on.called(routine);
    let mut slots = taken;
    fill(&mut slots, callee.slot_count())?;
    match exec_block(&callee, &func.body, slots.as_mut_slice(), out)? {
        Ok(how) => Ok(Ok(how.into_value())),
        Err(fault) => Ok(Err(fault)),
    }
}
