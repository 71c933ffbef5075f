//! The arguments of nodes as text.
ghost use Rattle.std.specs.Prelude.{◌≡◌, ◌++◌, OnOk, decimal, string_bytes};
ghost use Rattle.pyd_graph.specs.GraphText as spec;

use itoa::Buffer;
use pyd_ir::{Arg, Ref};
use pyd_text::write_repr;
use pyd_value::NoMemory;

/// Appends arguments, each behind a space.
pub(crate) fn push_fields(text: &mut String, args: &[Arg]) -> Result<(), NoMemory>
    ensures { OnOk result
        (string_bytes text.new ≡ string_bytes text.old ++ spec.fields_text args.now) }
{
    for arg in args {
        push_field(text, arg)?;
    }
    Ok(())
}

/// Appends an argument behind a space.
pub(crate) fn push_field(text: &mut String, arg: &Arg) -> Result<(), NoMemory>
    ensures { OnOk result
        (string_bytes text.new ≡ string_bytes text.old ++ spec.field_text arg.now) }
{
    push_bytes(text, " ")?;
    push_argument(text, arg)
}

fn push_argument(text: &mut String, arg: &Arg) -> Result<(), NoMemory>
    ensures { OnOk result
        (string_bytes text.new ≡ string_bytes text.old ++ spec.argument_text arg.now) }
{
    match arg {
        Arg::Known(value) => write_repr(text, value),
        Arg::From(at) | Arg::Slot(at) => push_port(text, *at),
        Arg::Unbound => push_bytes(text, "?"),
    }
}

fn push_port(text: &mut String, at: Ref) -> Result<(), NoMemory>
    ensures { OnOk result (string_bytes text.new ≡ string_bytes text.old ++ spec.port_text at) }
{
    push_bytes(text, "#")?;
    push_number(text, at.node)?;
    push_bytes(text, ".")?;
    push_number(text, u64::from(at.port))
}

/// Appends a number in decimal.
pub(crate) fn push_number(text: &mut String, number: u64) -> Result<(), NoMemory>
    ensures { OnOk result (string_bytes text.new ≡ string_bytes text.old ++ decimal number) }
{
    let mut buffer = Buffer::new();
    push_bytes(text, buffer.format(number))
}

/// Appends a text.
pub(crate) fn push_bytes(text: &mut String, more: &str) -> Result<(), NoMemory>
    ensures { OnOk result (string_bytes text.new ≡ string_bytes text.old ++ more.now) }
{
    text.push_str(more)?;
    Ok(())
}
