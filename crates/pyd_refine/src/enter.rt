//! A function that is entered (Python Language Reference, sections 4.2 and 8.7).
ghost use Rattle.std.specs.Prelude.{◌≡◌, ◌<◌, ◌^◌, ◌-◌, ◌++◌, [], IfOk, OnOk, length, option_map, replicate, suc};
ghost use Rattle.std.specs.Option.{option_copied};
ghost use Rattle.pyd_names.specs.Binding as names;
ghost use Rattle.pyd_ir.specs.declared.arg.Arg.TheVariants as arg;
ghost use Rattle.pyd_scope.specs.Parts.{function_routine};
ghost use Rattle.pyd_translate.specs.Flows.{file_in, context_in};
ghost use Rattle.pyd_refine.specs.Composites as spec;
ghost use Rattle.pyd_refine.specs.Drafts.{Ends, entered, taken};

use crate::stop::{stop, stop_by};
use pyd_ir::Arg;
use pyd_meaning::Limits;
use pyd_scope::{Program, Routine};
use pyd_translate::{Draft, Setting, Start, build_start, slots_of};
use pyd_value::{Fault, Kind, Limit, NoMemory};

/// A function's body one deeper, with slots of its own. A function that isn't there, a wrong count of
/// arguments and a depth that is used up are Stops in the line of the call.
pub(crate) fn refine_enter(
    at: &Setting<'_>,
    limits: Limits,
    line: u32,
    func: u32,
    args: &[Arg],
    draft: &mut Draft,
) -> Result<Arg, NoMemory>
    ensures { IfOk result (λ v. Ends draft.old
        (spec.function_refined (file_in at.now) limits (names.function (file_in at.now) func) func
        args.now (context_in at.now line []))
        [] draft.new [] v) }
{
    let Some(routine) = function(at.program, func) else {
        return stop_by(at, line, Kind::NameError, draft);
    };
    if args.len() != routine.params as usize {
        return stop_by(at, line, Kind::TypeError, draft);
    }
    if at.depth >= limits.depth {
        return stop(at, line, Fault::Limit(Limit::Depth, line), draft);
    }
    enter(at, func, args, draft)
}

/// The routine of a function, counted from 1.
fn function(program: &Program, number: u32) -> Option<&Routine>
    ensures { option_copied result
        ≡ option_map function_routine (names.function program.now.file number) }
{
    if number == 0 {
        return None;
    }
    program.routines.get(number as usize)
}

/// The body of a function whose first slots take the arguments.
fn enter(at: &Setting<'_>, func: u32, args: &[Arg], draft: &mut Draft) -> Result<Arg, NoMemory>
    requires { suc at.now.depth < 2 ^ 32 }
    ensures { IfOk result (λ v. Ends draft.old
        (entered at.now func (taken at.now func args.now)) [] draft.new [] v) }
{
    let callee = Setting {
        alloc: at.alloc,
        program: at.program,
        routine: func,
        depth: at.depth + 1,
    };
    let mut env = slots_of(at.alloc, args)?;
    fill(&mut env, callee.slots().len())?;
    build_start(&callee, &Start::Body, &[], &mut env, draft)
}

/// Puts slots that are not bound behind those that are there, up to so many.
fn fill(env: &mut Vec<Arg>, count: usize) -> Result<(), NoMemory>
    ensures { OnOk result (env.new.items
        ≡ env.old.items ++ replicate (count - length env.old.items) arg.Unbound) }
{
    while env.len() < count {
        match env.push(Arg::Unbound) {
            Ok(()) => {}
            Err(_) => return Err(NoMemory),
        }
    }
    Ok(())
}
