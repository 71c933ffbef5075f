//! Operators compared with CPython's answers, and reads.
ghost use Rattle.std.specs.Prelude.{◌≡◌, false};
ghost use Rattle.pyd_ir.specs.Meaning.{is_call};

mod reading;

use pyd_ir::*;
use pyd_meaning::{Limits, Ran};
use pyd_text::repr_of;
use pyd_tree::File;
use pyd_value::{BinOp, CmpOp, Kind, List, NoMemory, Outcome, UnOp, Value};
use reading::{fault, values};
use std::alloc::Global;
use std::test::Fail;

/// The line that is handed in.
const LINE: u32 = 7;

/// The arguments and the `repr` of what an operator gives, or the exception.
const ROWS: [(OpCode, &str, &str); 47] = [
    (OpCode::Unary(UnOp::Neg), "5", "-5"),
    (OpCode::Unary(UnOp::Pos), "True", "1"),
    (OpCode::Unary(UnOp::Not), "'", "True"),
    (OpCode::Unary(UnOp::Neg), "1 2", "TypeError"),
    (OpCode::Unary(UnOp::Neg), "", "TypeError"),
    (OpCode::Binary(BinOp::Div), "-7 2", "-4"),
    (OpCode::Binary(BinOp::Pow), "0 0", "1"),
    (OpCode::Binary(BinOp::And), "True 3", "1"),
    (OpCode::Binary(BinOp::And), "True False", "False"),
    (OpCode::Binary(BinOp::Add), "'a 'b", "'ab'"),
    (OpCode::Binary(BinOp::Mod), "1 0", "ZeroDivisionError"),
    (OpCode::Binary(BinOp::Add), "1 2 3", "TypeError"),
    (OpCode::Compare(CmpOp::Lt), "(1,2) (2,1)", "True"),
    (OpCode::Compare(CmpOp::Eq), "True 1", "True"),
    (OpCode::Compare(CmpOp::NotIn), "'b 'abc", "False"),
    (OpCode::Compare(CmpOp::Gt), "1 'a", "TypeError"),
    (OpCode::Compare(CmpOp::Gt), "1", "TypeError"),
    (OpCode::Index, "'hello -1", "'o'"),
    (OpCode::Index, "(4,5) 2", "IndexError"),
    (
        OpCode::Slice {
            low: true,
            high: true,
        },
        "'hello 1 -1",
        "'ell'",
    ),
    (
        OpCode::Slice {
            low: true,
            high: false,
        },
        "(1,2,3) 5",
        "()",
    ),
    (
        OpCode::Slice {
            low: true,
            high: false,
        },
        "'hello 1",
        "'ello'",
    ),
    (
        OpCode::Slice {
            low: false,
            high: true,
        },
        "'ab 1",
        "'a'",
    ),
    (
        OpCode::Slice {
            low: false,
            high: false,
        },
        "(1,2,3)",
        "(1, 2, 3)",
    ),
    (
        OpCode::Slice {
            low: true,
            high: true,
        },
        "'hello 1",
        "TypeError",
    ),
    (OpCode::Tuple, "", "()"),
    (OpCode::Tuple, "1 'a", "(1, 'a')"),
    (OpCode::Unpack(2), "(1,2)", "(1, 2)"),
    (OpCode::Unpack(2), "'ab", "('a', 'b')"),
    (OpCode::Unpack(2), "(1,2,3)", "ValueError"),
    (OpCode::Unpack(3), "(1,2)", "ValueError"),
    (OpCode::Unpack(1), "5", "TypeError"),
    (OpCode::Len, "'abc", "3"),
    (OpCode::Abs, "-3", "3"),
    (OpCode::Min, "3 1 2", "1"),
    (OpCode::Max, "(4,9,2)", "9"),
    (OpCode::Sum, "(1,2,3)", "6"),
    (OpCode::Str, "7", "'7'"),
    (OpCode::Repr, "'a", "\"'a'\""),
    (OpCode::Int, "'007", "7"),
    (OpCode::Bool, "'", "False"),
    (OpCode::Range, "5", "(0, 1, 5)"),
    (OpCode::Range, "5 0 -2", "(5, -2, 3)"),
    (OpCode::Range, "1 2 0", "ValueError"),
    (OpCode::Assert, "'a", "None"),
    (OpCode::Assert, "0", "AssertionError"),
    (OpCode::Assert, "", "TypeError"),
];

fn job(task: Task) -> Job
    ensures { result.task ≡ task }
{
    Job {
        node: 3,
        attempt: 1,
        line: LINE,
        depth: 0,
        task,
    }
}

// A task done over a file without items.
fn done(alloc: Global, task: Task) -> Result<Done, NoMemory>
    requires { is_call task ≡ false }
{
    let items = List::new(alloc);
    match run_op(alloc, &File { items }, Limits::usual(), job(task)) {
        Ok(done) => Ok(done),
        Err(failed) => {
            drop(failed);
            Err(NoMemory)
        }
    }
}

fn is_text(outcome: &Outcome, wanted: &str) -> bool {
    match outcome {
        Outcome::Ok(Value::Text(text)) => text.as_str() == wanted,
        _ => false,
    }
}

fn has_repr(alloc: Global, value: &Value, wanted: &str) -> Result<bool, NoMemory> {
    let repr = repr_of(alloc, value, LINE)?;
    let same = is_text(&repr, wanted);
    drop(repr);
    Ok(same)
}

// Whether a task printed nothing and gave the exception of this name, or a value of this `repr`.
fn is_row(alloc: Global, ran: &Ran, wanted: &str) -> Result<bool, NoMemory> {
    match &ran.outcome {
        Outcome::Ok(value) => Ok(ran.lines.is_empty() && has_repr(alloc, value, wanted)?),
        Outcome::Fault(given) => Ok(ran.lines.is_empty() && fault(wanted) == Some(*given)),
    }
}

fn gives(alloc: Global, op: OpCode, args: &str, wanted: &str) -> Result<bool, NoMemory> {
    let args = values(alloc, args)?;
    let done = done(alloc, Task::Op { op, args })?;
    let answer = is_row(alloc, &done.ran, wanted);
    drop(done);
    answer
}

#[test]
fn operators_answer_as_in_python(rt: HostRuntime) -> Result<(), Fail> {
    for (op, args, wanted) in &ROWS {
        assert!(rt; gives(rt.alloc(), *op, args, wanted)?, "{args} = {wanted}");
    }
    Ok(())
}

fn reads(alloc: Global, value: Option<Value>, kind: Kind, wanted: &str) -> Result<bool, NoMemory> {
    let done = done(alloc, Task::Read { value, kind })?;
    let answer = is_row(alloc, &done.ran, wanted);
    drop(done);
    answer
}

#[test]
fn a_read_gives_its_value_or_raises_its_kind(rt: HostRuntime) -> Result<(), Fail> {
    let kind = Kind::UnboundLocalError;
    assert!(rt; reads(rt.alloc(), Some(Value::Bool(true)), kind, "True")?);
    assert!(rt; reads(rt.alloc(), None, kind, "UnboundLocalError")?);
    Ok(())
}

fn is_copy(a: &Arg, b: &Arg) -> bool {
    match (a, b) {
        (Arg::Known(Value::Int(a)), Arg::Known(Value::Int(b))) => *a == *b,
        (Arg::From(a), Arg::From(b)) | (Arg::Slot(a), Arg::Slot(b)) => *a == *b,
        (Arg::Unbound, Arg::Unbound) => true,
        _ => false,
    }
}

fn copies(alloc: Global, a: &Arg) -> Result<bool, NoMemory> {
    let copy = a.try_copy(alloc)?;
    let answer = is_copy(&copy, a);
    drop(copy);
    Ok(answer)
}

#[test]
fn an_argument_is_copied(rt: HostRuntime) -> Result<(), Fail> {
    let at = Ref { node: 2, port: 1 };
    for a in &[Arg::From(at), Arg::Slot(at), Arg::Unbound] {
        assert!(rt; copies(rt.alloc(), a)?);
    }
    assert!(rt; copies(rt.alloc(), &Arg::Known(Value::Int(5)))?);
    Ok(())
}
