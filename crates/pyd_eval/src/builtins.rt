//! Calls of builtin functions (Python Standard Library, "Built-in Functions").
ghost use Rattle.std.specs.Prelude.{◌≡◌, ◌∷◌, [], ◌++◌, ℕ, List as Sequence, IfOk, OnOk};
ghost use Rattle.pyd_value.specs.declared.value.Value.{Int, Text as TextValue, Tuple};
ghost use Rattle.pyd_meaning.specs.Calls.{builtin_called, printed, range_value};
ghost use Rattle.pyd_ops.specs.Ranges as spec;
ghost use Rattle.pyd_text.specs.Texts as texts;
ghost use Rattle.pyd_eval.specs.Given.{seen, Does};

use crate::got::{Got, given};
use pyd_ops::{Span, builtin, range_of};
use pyd_text::{line_of, text_builtin};
use pyd_value::{Builtin, Fault, List, NoMemory, Outcome, Text, Value};
use std::alloc::Global;

/// What a builtin function does with these values, which are dropped.
pub(crate) fn call_builtin<'a>(
    alloc: Global,
    which: Builtin,
    args: List<Value>,
    line: u32,
    out: &mut List<Text>,
) -> Result<Result<Got<'a>, Fault>, NoMemory>
    ensures { IfOk result (λ got.
        Does out.old (builtin_called which args line) out.new (seen got)) }
{
    let answer = answer(alloc, which, args.as_slice(), line, out);
    drop(args);
    answer
}

fn answer<'a>(
    alloc: Global,
    which: Builtin,
    args: &[Value],
    line: u32,
    out: &mut List<Text>,
) -> Result<Result<Got<'a>, Fault>, NoMemory>
    ensures { IfOk result (λ got.
        Does out.old (builtin_called which args.now line) out.new (seen got)) }
{
    match which {
        Builtin::Print => print(alloc, args, line, out),
        Builtin::Range => range(alloc, args, line),
        Builtin::Str | Builtin::Repr | Builtin::Int => {
            Ok(given(text_builtin(alloc, which, args, line)?))
        }
        Builtin::Len | Builtin::Abs | Builtin::Min | Builtin::Max | Builtin::Sum | Builtin::Bool =>
            Ok(given(builtin(alloc, which, args, line)?)),
    }
}

/// Prints the texts of values in one line.
fn print<'a>(
    alloc: Global,
    args: &[Value],
    line: u32,
    out: &mut List<Text>,
) -> Result<Result<Got<'a>, Fault>, NoMemory>
    ensures { IfOk result (λ got.
        Does out.old (printed (texts.line args.now line)) out.new (seen got)) }
{
    match line_of(alloc, args, line)? {
        Outcome::Ok(value) => {
            put_line(value, out)?;
            Ok(Ok(Got::Own(Value::None)))
        }
        Outcome::Fault(fault) => Ok(Err(fault)),
    }
}

/// Puts a text at the end of the lines.
fn put_line(value: Value, out: &mut List<Text>) -> Result<(), NoMemory>
    ensures { OnOk result ((t : Sequence ℕ) → value ≡ TextValue t → out.new ≡ out.old ++ t ∷ []) }
{
    match value {
        Value::Text(text) => out.add(text),
        other => {
            drop(other);
            Err(NoMemory)
        }
    }
}

/// The value of a call of `range`: the tuple of its first number, its step and its count.
fn range<'a>(alloc: Global, args: &[Value], line: u32) -> Result<Result<Got<'a>, Fault>, NoMemory>
    ensures { IfOk result (λ got. seen got ≡ range_value (spec.range_of args.now line)) }
{
    match range_of(args, line) {
        Ok(span) => Ok(Ok(Got::Own(tuple_of(alloc, &span)?))),
        Err(fault) => Ok(Err(fault)),
    }
}

fn tuple_of(alloc: Global, span: &Span) -> Result<Value, NoMemory>
    ensures { IfOk result (λ v. v
        ≡ Tuple (Int span.now.from ∷ Int span.now.step ∷ Int span.now.count ∷ [])) }
{
    let mut members = List::new(alloc);
    members.add(Value::Int(span.from))?;
    members.add(Value::Int(span.step))?;
    members.add(Value::Int(span.count))?;
    Ok(Value::Tuple(members))
}
