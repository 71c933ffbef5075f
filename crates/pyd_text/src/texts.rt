//! The text of a value, and of a printed line. What the limits refuse isn't built.
ghost use Rattle.pyd_ops.specs.Answer.{Answers};
ghost use Rattle.pyd_ops.specs.Joining.{text_if_fits};
ghost use Rattle.pyd_text.specs.Texts as spec;

use crate::answer::{exceed, text_value};
use crate::measuring::{printed_len, repr_len};
use crate::writing::{write_printed, write_repr};
use pyd_value::{LARGEST_SIZE, Limit, NoMemory, Outcome, Text, Value};
use std::alloc::Global;

/// What `str(a)` gives (docs/LANGUAGE.md, "Texts of values"): a text itself, and of any other value
/// its `repr`. `SizeLimit` in the line exactly where the text would be above `LARGEST_SIZE`.
pub fn str_of(alloc: Global, a: &Value, line: u32) -> Result<Outcome, NoMemory>
    ensures { Answers result (spec.str_of a.now line) }
{
    match a {
        Value::Text(text) => share(text, line),
        _ => repr_of(alloc, a, line),
    }
}

/// The same text, whose bytes both share.
fn share(text: &Text, line: u32) -> Result<Outcome, NoMemory>
    ensures { Answers result (text_if_fits text.now line) }
{
    if text.as_str().len() as u64 >= LARGEST_SIZE {
        return Ok(exceed(Limit::Size, line));
    }
    Ok(Outcome::Ok(Value::Text(text.try_clone()?)))
}

/// What `repr(a)` gives (docs/LANGUAGE.md, "Texts of values"). `SizeLimit` in the line exactly where
/// the text would be above `LARGEST_SIZE`.
pub fn repr_of(alloc: Global, a: &Value, line: u32) -> Result<Outcome, NoMemory>
    ensures { Answers result (spec.repr_of a.now line) }
{
    let len = repr_len(a);
    if len >= LARGEST_SIZE {
        return Ok(exceed(Limit::Size, line));
    }
    let mut text = String::with_capacity(alloc, len as usize)?;
    write_repr(&mut text, a)?;
    text_value(alloc, text)
}

/// The text of a `print` without its newline: the `str` of each argument, divided by spaces.
/// `SizeLimit` in the line exactly where it would be above `LARGEST_SIZE`.
pub fn line_of(alloc: Global, args: &[Value], line: u32) -> Result<Outcome, NoMemory>
    ensures { Answers result (spec.line_of args.now line) }
{
    let len = printed_len(args);
    if len >= LARGEST_SIZE {
        return Ok(exceed(Limit::Size, line));
    }
    let mut text = String::with_capacity(alloc, len as usize)?;
    write_printed(&mut text, args)?;
    text_value(alloc, text)
}
