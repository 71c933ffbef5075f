//! Jobs of each task, over the program of a small source.
ghost use Rattle.std.specs.Prelude.{IfOk, IsSome, IsTrue};
ghost use Rattle.pyd_board.specs.Serving.{Serves};
ghost use Rattle.pyd_ir.specs.Meaning.{TaskFits};
ghost use Rattle.pyd_names.specs.Binding.{function};
ghost use Rattle.pyd_tree.specs.declared.file.File.{File as Tree};

use crate::EvalRunner;
use pyd_board::Runner;
use pyd_grammar::parse;
use pyd_ir::{Done, Job, OpCode, Task};
use pyd_lex::tokens;
use pyd_meaning::Limits;
use pyd_names::functions;
use pyd_scope::{Program, check};
use pyd_tree::File;
use pyd_value::{BinOp, Fault, Kind, Limit, List, NoMemory, Outcome, Text, Value};
use std::alloc::Global;
use std::test::Fail;

const SOURCE: &str = "def f(a, b):\n    print(a)\n    return a // b\n";

const LIMITS: Limits = Limits { turns: 9, depth: 2 };

/// The line of each job.
const LINE: u32 = 7;

/// What is done with integers: an addition, a read of the first one, or a call of `f`.
#[derive(Clone, Copy, Debug)]
enum Doing {
    Add,
    Read,
    Call,
    Run,
}

/// What a job gives.
#[derive(Clone, Copy)]
enum Wanted {
    Number(i128),
    Raised(Kind, u32),
    TooDeep,
}

/// What is done with which integers, for a routine at a depth; what it gives, and the line that it
/// prints, if any.
const ROWS: [(Doing, &[i128], u32, Wanted, &str); 13] = [
    (Doing::Add, &[1, 2], 2, Wanted::Number(3), ""),
    (
        Doing::Add,
        &[1],
        0,
        Wanted::Raised(Kind::TypeError, LINE),
        "",
    ),
    (Doing::Read, &[5], 0, Wanted::Number(5), ""),
    (
        Doing::Read,
        &[],
        0,
        Wanted::Raised(Kind::NameError, LINE),
        "",
    ),
    (Doing::Call, &[7, 2], 0, Wanted::Number(3), "7"),
    (Doing::Call, &[7, 2], 1, Wanted::Number(3), "7"),
    (Doing::Call, &[7, 2], 2, Wanted::TooDeep, ""),
    (
        Doing::Call,
        &[7],
        0,
        Wanted::Raised(Kind::TypeError, LINE),
        "",
    ),
    (Doing::Run, &[-7, 2], 1, Wanted::Number(-4), "-7"),
    (
        Doing::Run,
        &[7, 0],
        1,
        Wanted::Raised(Kind::ZeroDivisionError, 3),
        "7",
    ),
    (Doing::Run, &[7, 2], 2, Wanted::TooDeep, ""),
    (Doing::Run, &[7, 2], 3, Wanted::TooDeep, ""),
    (
        Doing::Run,
        &[7, 2, 1],
        2,
        Wanted::Raised(Kind::TypeError, LINE),
        "",
    ),
];

fn program(alloc: Global) -> Result<Program, Fail> {
    let bytes = SOURCE.as_bytes();
    if bytes.len() > 100 {
        return Err(Fail::new("the source is long"));
    }
    let Ok(tokens) = tokens(alloc, bytes) else {
        return Err(Fail::new("no tokens"));
    };
    let Ok(file) = parse(alloc, bytes, &tokens) else {
        return Err(Fail::new("no tree"));
    };
    let Ok(program) = check(alloc, file) else {
        return Err(Fail::new("no program"));
    };
    Ok(program)
}

/// Whether a file has a function.
fn has_function(alloc: Global, file: &File) -> Result<bool, NoMemory>
    ensures { IfOk result (λ has. IsTrue has → IsSome (function file.now 1)) }
{
    let functions = functions(alloc, file)?;
    Ok(!functions.is_empty())
}

fn integers(alloc: Global, numbers: &[i128]) -> Result<List<Value>, NoMemory> {
    let mut values = List::new(alloc);
    for number in numbers {
        values.add(Value::Int(*number))?;
    }
    Ok(values)
}

fn first(numbers: &[i128]) -> Option<Value> {
    match numbers.first() {
        Some(number) => Some(Value::Int(*number)),
        None => None,
    }
}

fn task(alloc: Global, doing: Doing, numbers: &[i128]) -> Result<Task, NoMemory>
    ensures { IfOk result (λ task.
        (file : Tree) → IsSome (function file 1) → TaskFits task file) }
{
    let args = integers(alloc, numbers)?;
    match doing {
        Doing::Add => Ok(Task::Op {
            op: OpCode::Binary(BinOp::Add),
            args,
        }),
        Doing::Read => Ok(Task::Read {
            value: first(numbers),
            kind: Kind::NameError,
        }),
        Doing::Call => Ok(Task::Call { func: 1, args }),
        Doing::Run => Ok(Task::Run { func: 1, args }),
    }
}

fn is_given(outcome: &Outcome, wanted: Wanted) -> bool {
    match (outcome, wanted) {
        (Outcome::Ok(Value::Int(number)), Wanted::Number(wanted)) => *number == wanted,
        (Outcome::Fault(fault), Wanted::Raised(kind, line)) => *fault == Fault::Raised(kind, line),
        (Outcome::Fault(fault), Wanted::TooDeep) => *fault == Fault::Limit(Limit::Depth, LINE),
        _ => false,
    }
}

fn is_printed(lines: &[Text], wanted: &str) -> bool {
    match lines {
        [] => wanted.is_empty(),
        [line] => line.as_str() == wanted,
        _ => false,
    }
}

/// Runs a job for a routine at a depth, in a file that has a function.
fn done(runner: &EvalRunner, depth: u32, task: Task) -> Result<Done, Fail>
    requires { Serves (⟦<EvalRunner as Runner>⟧.bases runner.now) 0 (TaskFits task) }
{
    let job = Job {
        node: 3,
        attempt: 1,
        line: LINE,
        depth,
        task,
    };
    if runner.file(&job).items.len() != 1 {
        drop(job);
        return Err(Fail::new("another file"));
    }
    match runner.run(job) {
        Ok(done) => Ok(done),
        Err((job, NoMemory)) => {
            drop(job);
            Err(Fail::new("memory"))
        }
    }
}

#[test]
fn jobs_of_each_task_are_done(rt: HostRuntime) -> Result<(), Fail> {
    let alloc = rt.alloc();
    let program = program(alloc)?;
    if !has_function(alloc, &program.file)? {
        drop(program);
        return Err(Fail::new("no function"));
    }
    let runner = EvalRunner::new(alloc, program, LIMITS);
    for (doing, numbers, depth, wanted, line) in &ROWS {
        let task = task(alloc, *doing, numbers)?;
        let done = done(&runner, *depth, task)?;
        let right = is_given(&done.ran.outcome, *wanted)
            && is_printed(done.ran.lines.as_slice(), line);
        drop(done);
        assert!(rt; right, "{doing:?}, {depth}, {line}");
    }
    Ok(())
}
