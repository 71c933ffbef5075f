//! Calls of `str`, `repr` and `int` (Python Standard Library, "Built-in Functions").
ghost use Rattle.std.specs.Prelude.{IsTrue};
ghost use Rattle.pyd_ops.specs.Answer.{Answers};
ghost use Rattle.pyd_text.specs.Calls as spec;

use crate::answer::{exceed, raise, text_value};
use crate::numerals::int_of;
use crate::texts::{repr_of, str_of};
use pyd_value::{Builtin, Kind, Limit, NoMemory, Outcome, Value};
use std::alloc::Global;

/// What `str`, `repr` and `int` give: without arguments the empty text and 0, with one argument
/// `str_of`, `repr_of` and `int_of`. `Outside` for `int` of two arguments, `TypeError` for any other
/// count.
pub fn text_builtin(
    alloc: Global,
    which: Builtin,
    args: &[Value],
    line: u32,
) -> Result<Outcome, NoMemory>
    requires { IsTrue (spec.is_of_texts which) }
    ensures { Answers result (spec.text_builtin which args.now line) }
{
    match (which, args) {
        (Builtin::Str, []) => text_value(alloc, String::new(alloc)),
        (Builtin::Str, [a]) => str_of(alloc, a, line),
        (Builtin::Repr, [a]) => repr_of(alloc, a, line),
        (Builtin::Int, []) => Ok(Outcome::Ok(Value::Int(0))),
        (Builtin::Int, [a]) => int_of(a, line),
        (Builtin::Int, [_, _]) => Ok(exceed(Limit::Outside, line)),
        _ => Ok(raise(Kind::TypeError, line)),
    }
}
