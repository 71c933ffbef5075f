//! How many bytes texts of values will take, cut to 2^64 - 1. Each value is walked once.
ghost use Rattle.std.specs.Prelude.{◌≡◌, map, length, codes};
ghost use Rattle.std.specs.Fmt.{signed_decimal};
ghost use Rattle.std.specs.List.{join_by};
ghost use Rattle.pyd_text.specs.Texts.{repr, str, parenthesized, printed};
ghost use Rattle.pyd_text.specs.Writing.{byte_count, cut};
ghost use Rattle.pyd_text.specs.Writing as spec;

use crate::quoting::quoted_len;
use itoa::Buffer;
use pyd_value::Value;

/// The bytes of a value's `repr`.
#[cycle(repr_len)]
pub(crate) fn repr_len(a: &Value) -> u64
    ensures { result ≡ cut (byte_count (repr a.now)) }
{
    match a {
        Value::Int(n) => int_len(*n),
        Value::Bool(true) => 4,
        Value::Bool(false) => 5,
        Value::Text(text) => quoted_len(text.as_str()),
        Value::Tuple(members) => tuple_len(members.as_slice()),
        Value::None => 4,
    }
}

#[cycle(repr_len)]
fn tuple_len(members: &[Value]) -> u64
    ensures { result ≡ cut (byte_count (parenthesized (map repr members.now))) }
{
    match members {
        [] => 2,
        [only] => repr_len(only).saturating_add(3),
        _ => listed_len(members).saturating_add(2),
    }
}

#[cycle(repr_len)]
fn listed_len(members: &[Value]) -> u64
    ensures { result ≡ cut (byte_count (join_by repr (codes ", ") members.now)) }
{
    let mut len: u64 = 0;
    for (i, member) in members.iter().enumerate() {
        len = len
            .saturating_add(divider_len(", ", i))
            .saturating_add(repr_len(member));
    }
    len
}

/// The bytes of the divider before item number i, counted from 0.
fn divider_len(divider: &str, i: usize) -> u64
    ensures { result ≡ length (spec.divider divider.now i) }
{
    if i == 0 { 0 } else { divider.len() as u64 }
}

fn int_len(n: i128) -> u64
    ensures { result ≡ cut (byte_count (signed_decimal n)) }
{
    let mut buffer = Buffer::new();
    buffer.format(n).len() as u64
}

fn str_len(a: &Value) -> u64
    ensures { result ≡ cut (byte_count (str a.now)) }
{
    match a {
        Value::Text(text) => text.as_str().len() as u64,
        _ => repr_len(a),
    }
}

/// The bytes of a printed line.
pub(crate) fn printed_len(args: &[Value]) -> u64
    ensures { result ≡ cut (byte_count (printed args.now)) }
{
    let mut len: u64 = 0;
    for (i, arg) in args.iter().enumerate() {
        len = len
            .saturating_add(divider_len(" ", i))
            .saturating_add(str_len(arg));
    }
    len
}
