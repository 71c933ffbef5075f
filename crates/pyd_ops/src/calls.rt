//! The builtin functions of values (Python Standard Library, "Built-in Functions").
ghost use Rattle.std.specs.Prelude.{◌≡◌, IsTrue};
ghost use Rattle.pyd_ops.specs.Answer.{outcome_of, Answers};
ghost use Rattle.pyd_ops.specs.Sequence.{items};
ghost use Rattle.pyd_ops.specs.Calls as spec;

use crate::answer::{checked, raise};
use crate::extremes::{Extreme, choose};
use crate::sums::sum;
use pyd_value::{Builtin, Kind, NoMemory, Outcome, Value, number, truth};
use std::alloc::Global;

/// What a builtin function gives: the number of items, the absolute value, the least or greatest
/// candidate, the sum or the truth. `TypeError` for a wrong count of arguments or other kinds,
/// `ValueError` where there is no candidate.
pub fn builtin(
    alloc: Global,
    which: Builtin,
    args: &[Value],
    line: u32,
) -> Result<Outcome, NoMemory>
    requires { IsTrue (spec.is_of_values which) }
    ensures { Answers result (spec.builtin which args.now line) }
{
    match (which, args) {
        (Builtin::Len, [a]) => Ok(len(a, line)),
        (Builtin::Abs, [a]) => Ok(absolute(number(a), line)),
        (Builtin::Min, args) => choose(alloc, Extreme::Least, args, line),
        (Builtin::Max, args) => choose(alloc, Extreme::Greatest, args, line),
        (Builtin::Sum, [a]) => sum(alloc, a, &Value::Int(0), line),
        (Builtin::Sum, [a, start]) => sum(alloc, a, start, line),
        (Builtin::Bool, []) => Ok(Outcome::Ok(Value::Bool(false))),
        (Builtin::Bool, [a]) => Ok(Outcome::Ok(Value::Bool(truth(a)))),
        _ => Ok(raise(Kind::TypeError, line)),
    }
}

fn len(a: &Value, line: u32) -> Outcome
    ensures { result ≡ outcome_of (spec.len (items a.now) line) }
{
    match a {
        Value::Text(text) => checked(Some(text.count() as i128), line),
        Value::Tuple(members) => checked(Some(members.len() as i128), line),
        _ => raise(Kind::TypeError, line),
    }
}

fn absolute(n: Option<i128>, line: u32) -> Outcome
    ensures { result ≡ outcome_of (spec.absolute n line) }
{
    match n {
        Some(n) => checked(n.checked_abs(), line),
        None => raise(Kind::TypeError, line),
    }
}
