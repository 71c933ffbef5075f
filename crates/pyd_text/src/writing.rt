//! Writing the texts of values behind what is in a `String`.
ghost use Rattle.std.specs.Prelude.{◌≡◌, ◌++◌, map, codes, string_bytes, OnOk};
ghost use Rattle.std.specs.Fmt.{signed_decimal};
ghost use Rattle.std.specs.List.{join_by};
ghost use Rattle.pyd_text.specs.Texts.{repr, str, parenthesized, printed};
ghost use Rattle.pyd_text.specs.Writing.{Appends};
ghost use Rattle.pyd_text.specs.Writing as spec;

use crate::quoting::write_quoted;
use itoa::Buffer;
use pyd_value::{NoMemory, Value};

/// Writes the `repr` of a value behind what is there, however long it is (docs/LANGUAGE.md, "Texts
/// of values").
#[cycle(write_repr)]
pub fn write_repr(out: &mut String, a: &Value) -> Result<(), NoMemory>
    ensures { OnOk result (Appends out.old out.new (repr a.now)) }
{
    match a {
        Value::Int(n) => write_int(out, *n),
        Value::Bool(true) => write_bytes(out, "True"),
        Value::Bool(false) => write_bytes(out, "False"),
        Value::Text(text) => write_quoted(out, text.as_str()),
        Value::Tuple(members) => write_tuple(out, members.as_slice()),
        Value::None => write_bytes(out, "None"),
    }
}

#[cycle(write_repr)]
fn write_tuple(out: &mut String, members: &[Value]) -> Result<(), NoMemory>
    ensures { OnOk result (Appends out.old out.new (parenthesized (map repr members.now))) }
{
    match members {
        [] => write_bytes(out, "()"),
        [only] => {
            out.push('(')?;
            write_repr(out, only)?;
            write_bytes(out, ",)")
        }
        _ => {
            out.push('(')?;
            write_listed(out, members)?;
            write_bytes(out, ")")
        }
    }
}

#[cycle(write_repr)]
fn write_listed(out: &mut String, members: &[Value]) -> Result<(), NoMemory>
    ensures { OnOk result (Appends out.old out.new (join_by repr (codes ", ") members.now)) }
{
    for (i, member) in members.iter().enumerate() {
        write_divider(out, ", ", i)?;
        write_repr(out, member)?;
    }
    Ok(())
}

/// Writes the divider before item number i, counted from 0.
fn write_divider(out: &mut String, divider: &str, i: usize) -> Result<(), NoMemory>
    ensures { OnOk result
        (string_bytes out.new ≡ string_bytes out.old ++ spec.divider divider.now i) }
{
    if i > 0 {
        out.push_str(divider)?;
    }
    Ok(())
}

fn write_bytes(out: &mut String, s: &str) -> Result<(), NoMemory>
    ensures { OnOk result (string_bytes out.new ≡ string_bytes out.old ++ s.now) }
{
    out.push_str(s)?;
    Ok(())
}

fn write_int(out: &mut String, n: i128) -> Result<(), NoMemory>
    ensures { OnOk result (Appends out.old out.new (signed_decimal n)) }
{
    let mut buffer = Buffer::new();
    out.push_str(buffer.format(n))?;
    Ok(())
}

/// Writes the `str` of a value.
fn write_str(out: &mut String, a: &Value) -> Result<(), NoMemory>
    ensures { OnOk result (Appends out.old out.new (str a.now)) }
{
    match a {
        Value::Text(text) => write_bytes(out, text.as_str()),
        _ => write_repr(out, a),
    }
}

/// Writes the `str` of each argument, divided by spaces.
pub(crate) fn write_printed(out: &mut String, args: &[Value]) -> Result<(), NoMemory>
    ensures { OnOk result (Appends out.old out.new (printed args.now)) }
{
    for (i, arg) in args.iter().enumerate() {
        write_divider(out, " ", i)?;
        write_str(out, arg)?;
    }
    Ok(())
}
