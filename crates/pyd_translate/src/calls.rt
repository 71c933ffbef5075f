//! Calls (Python Language Reference, section 6.3.4).
ghost use Rattle.std.specs.Prelude.{◌≡◌, Some, IfOk};
ghost use Rattle.pyd_names.specs.Binding as names;
ghost use Rattle.pyd_translate.specs.Drafts as drafts;
ghost use Rattle.pyd_translate.specs.Drafts.{Makes, context_of, file_of};
ghost use Rattle.pyd_translate.specs.Expressions as spec;

use crate::context::Context;
use crate::draft::{Draft, emit_value, stop_by};
use crate::expressions::build_each;
use crate::names::name_operand;
use pyd_ir::{Arg, OpCode, Work};
use pyd_scope::{Routine, Use};
use pyd_tree::Expr;
use pyd_value::{Builtin, Kind, List, NoMemory, Text};

/// A call whose first argument is expression number `k`.
#[cycle(build)]
pub(crate) fn build_call(
    at: &Context<'_>,
    k: u32,
    name: &Text,
    args: &[Expr],
    draft: &mut Draft,
) -> Result<Option<Arg>, NoMemory>
    ensures { IfOk result (λ got.
        Makes draft.old (drafts.call at.now name.now args.now k) draft.new got) }
{
    match at.program.resolve(at.routine, name) {
        Use::Routine(number) => build_function_call(at, k, number, args, draft),
        Use::Builtin(builtin) => build_builtin_call(at, k, builtin, args, draft),
        Use::Slot(_) | Use::Constant(_) | Use::Imported | Use::Variable | Use::Unbound => {
            build_value_call(at, k, name, args, draft)
        }
    }
}

/// The arguments of a call of a function, and then the call.
#[cycle(build)]
fn build_function_call(
    at: &Context<'_>,
    k: u32,
    number: u32,
    args: &[Expr],
    draft: &mut Draft,
) -> Result<Option<Arg>, NoMemory>
    ensures { IfOk result (λ got.
        Makes draft.old (drafts.call_of_function at.now number args.now k) draft.new got) }
{
    match build_each(at, k, args, draft)? {
        Some(args) => function_call(at, number, args, draft),
        None => Ok(None),
    }
}

/// A call of a function that may not be there, or may have another count of parameters.
fn function_call(
    at: &Context<'_>,
    number: u32,
    args: List<Arg>,
    draft: &mut Draft,
) -> Result<Option<Arg>, NoMemory>
    ensures { IfOk result (λ got. Makes draft.old
        (spec.function_call (names.function (file_of at.now) number) number
        (context_of at.now) args) draft.new got) }
{
    let Some(routine) = at.function(number) else {
        stop_by(at, Kind::NameError, draft)?;
        return Ok(None);
    };
    if args.len() != routine.params as usize {
        stop_by(at, Kind::TypeError, draft)?;
        return Ok(None);
    }
    Ok(Some(emit_value(at, function_work(routine, number, args), draft)?))
}

/// The node of a function: an unfolded one is entered, a pure one is called, and any other runs.
fn function_work(routine: &Routine, func: u32, args: List<Arg>) -> Work
    ensures { result ≡ drafts.routine_work routine.now func args }
{
    if routine.unfolded {
        Work::Enter { func, args }
    } else if routine.pure {
        Work::Call { func, args }
    } else {
        Work::Run { func, args }
    }
}

/// The arguments of a call of a builtin function, and then its node.
#[cycle(build)]
fn build_builtin_call(
    at: &Context<'_>,
    k: u32,
    builtin: Builtin,
    args: &[Expr],
    draft: &mut Draft,
) -> Result<Option<Arg>, NoMemory>
    ensures { IfOk result (λ got.
        Makes draft.old (drafts.call_of_builtin at.now builtin args.now k) draft.new got) }
{
    match build_each(at, k, args, draft)? {
        Some(args) => Ok(Some(emit_value(at, builtin_work(builtin, args), draft)?)),
        None => Ok(None),
    }
}

/// The node of a builtin function.
fn builtin_work(builtin: Builtin, args: List<Arg>) -> Work
    ensures { result ≡ spec.builtin_work builtin args }
{
    let op = match builtin {
        Builtin::Print => return Work::Print(args),
        Builtin::Len => OpCode::Len,
        Builtin::Abs => OpCode::Abs,
        Builtin::Min => OpCode::Min,
        Builtin::Max => OpCode::Max,
        Builtin::Sum => OpCode::Sum,
        Builtin::Str => OpCode::Str,
        Builtin::Repr => OpCode::Repr,
        Builtin::Int => OpCode::Int,
        Builtin::Bool => OpCode::Bool,
        Builtin::Range => OpCode::Range,
    };
    Work::Op { op, args }
}

/// A call of a value, which raises `TypeError` behind the arguments.
#[cycle(build)]
fn build_value_call(
    at: &Context<'_>,
    k: u32,
    name: &Text,
    args: &[Expr],
    draft: &mut Draft,
) -> Result<Option<Arg>, NoMemory>
    ensures { IfOk result (λ got.
        Makes draft.old (drafts.call_of_value at.now name.now args.now k) draft.new got) }
{
    match name_operand(at, name, draft)? {
        Some(callee) => {
            drop(callee);
            match build_each(at, k, args, draft)? {
                Some(args) => {
                    drop(args);
                    stop_by(at, Kind::TypeError, draft)?;
                    Ok(None)
                }
                None => Ok(None),
            }
        }
        None => Ok(None),
    }
}
