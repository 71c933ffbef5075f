//! A call of a function from outside, and a whole script.
ghost use Rattle.std.specs.Prelude.{◌≡◌, map, length, IfOk, IfErr, Some};
ghost use Rattle.pyd_ops.specs.Answer as answer;
ghost use Rattle.pyd_meaning.specs.Completion.{in_turn};
ghost use Rattle.pyd_meaning.specs.Module as meaning;
ghost use Rattle.pyd_meaning.specs.Statement.{action_of};
ghost use Rattle.pyd_eval.specs.Frames.{names_of, setting, Holds};
ghost use Rattle.pyd_eval.specs.Given.{Does};
ghost use Rattle.pyd_eval.specs.Left.{reached};
ghost use Rattle.pyd_eval.specs.Whole as spec;

use crate::activation::Activation;
use crate::arguments::add_slot;
use crate::calls::call_function;
use crate::completion::Completion;
use crate::execute::exec_stmt;
use crate::got::Got;
use crate::slots::fill;
use pyd_meaning::{Limits, Ran};
use pyd_names::{functions, module_statements};
use pyd_scope::Program;
use pyd_tree::Stmt;
use pyd_value::{End, Fault, List, NoMemory, Outcome, Text, Value};
use std::alloc::Global;

/// How a script ends, and the lines that it prints, without their newlines.
#[derive(Debug, Drop, PartialEq, Eq)]
pub struct Whole {
    pub end: End,
    pub lines: List<Text>,
}

/// What a call of a function at a depth from 1 on gives and prints (docs/LANGUAGE.md, "Functions").
/// `func` is its number, counted from 1 in text order; it has as many parameters as there are
/// arguments. For want of memory these are handed back.
pub fn call(
    alloc: Global,
    program: &Program,
    limits: Limits,
    func: u32,
    args: List<Value>,
    depth: u32,
) -> Result<Ran, (List<Value>, NoMemory)>
    requires function { spec.IsCalled program.now.file func (length args) }
    requires depth { spec.IsDepth limits depth }
    ensures ok { IfOk result (λ ran. spec.IsRunOfCall program.now.file limits depth func args ran) }
    ensures err { IfErr result (λ e. e.0 ≡ args) }
{
    match run_call(alloc, program, limits, func, args.as_slice(), depth) {
        Ok(ran) => {
            drop(args);
            Ok(ran)
        }
        Err(NoMemory) => Err((args, NoMemory)),
    }
}

fn run_call(
    alloc: Global,
    program: &Program,
    limits: Limits,
    func: u32,
    args: &[Value],
    depth: u32,
) -> Result<Ran, NoMemory>
    requires function { spec.IsCalled program.now.file func (length args.now) }
    requires depth { spec.IsDepth limits depth }
    ensures { IfOk result (λ ran.
        spec.IsRunOfCall program.now.file limits depth func args.now ran) }
{
    let functions = functions(alloc, &program.file)?;
    let on = Activation {
        alloc,
        program,
        functions: functions.as_slice(),
        limits,
        routine: 0,
        depth: depth - 1,
    };
    let mut lines = List::new(alloc);
    let taken = take(alloc, args)?;
    let got = call_function(&on, func, taken, 0, &mut lines)?;
    let outcome = outcome_of(got);
    Ok(Ran { outcome, lines })
}

/// Arguments in slots.
fn take(alloc: Global, args: &[Value]) -> Result<Vec<Option<Value>>, NoMemory>
    ensures { IfOk result (λ taken. taken.items ≡ map Some args.now) }
{
    let mut taken = Vec::new(alloc);
    for arg in args {
        add_slot(alloc, &mut taken, Got::Lent(arg))?;
    }
    Ok(taken)
}

/// A value or a fault, as it is handed out.
fn outcome_of(got: Result<Value, Fault>) -> Outcome
    ensures { result ≡ answer.outcome_of got }
{
    match got {
        Ok(value) => Outcome::Ok(value),
        Err(fault) => Outcome::Fault(fault),
    }
}

/// How a script ends and what it prints, under these limits (docs/LANGUAGE.md).
pub fn module(alloc: Global, program: &Program, limits: Limits) -> Result<Whole, NoMemory>
    ensures end { IfOk result (λ whole.
        whole.end ≡ meaning.end_of (meaning.mean program.now.file limits).result) }
    ensures lines { IfOk result (λ whole.
        whole.lines ≡ (meaning.mean program.now.file limits).lines) }
{
    let functions = functions(alloc, &program.file)?;
    let statements = module_statements(alloc, &program.file)?;
    let on = Activation {
        alloc,
        program,
        functions: functions.as_slice(),
        limits,
        routine: 0,
        depth: 0,
    };
    let mut lines = List::new(alloc);
    let mut slots = Vec::new(alloc);
    fill(&mut slots, on.slot_count())?;
    let how = exec_all(&on, &statements, slots.as_mut_slice(), &mut lines)?;
    let end = end_of(how);
    Ok(Whole { end, lines })
}

/// Statements one after another, until one isn't left normally.
fn exec_all(
    on: &Activation<'_>,
    stmts: &[&Stmt],
    slots: &mut [Option<Value>],
    out: &mut List<Text>,
) -> Result<Result<Completion, Fault>, NoMemory>
    requires { Holds on.now slots.old (spec.all_bound (map (λ s. s.now) stmts.now)) }
    ensures { IfOk result (λ how.
        Does out.old (in_turn (map (action_of (setting on.now)) (map (λ s. s.now) stmts.now))
        (names_of on.now slots.old)) out.new (reached (names_of on.now slots.new) how)) }
{
    for stmt in stmts {
        match exec_stmt(on, stmt, slots, out)? {
            Ok(Completion::Normal) => {}
            Ok(Completion::Break) => return Ok(Ok(Completion::Break)),
            Ok(Completion::Continue) => return Ok(Ok(Completion::Continue)),
            Ok(Completion::Return(v)) => return Ok(Ok(Completion::Return(v))),
            Err(fault) => return Ok(Err(fault)),
        }
    }
    Ok(Ok(Completion::Normal))
}

/// How a script ends whose statements were left so.
fn end_of(how: Result<Completion, Fault>) -> End
    ensures { result ≡ meaning.end_of how }
{
    match how {
        Ok(how) => {
            drop(how);
            End::Finished
        }
        Err(Fault::Raised(kind, line)) => End::Raised(kind, line),
        Err(Fault::Limit(limit, line)) => End::Limit(limit, line),
    }
}
