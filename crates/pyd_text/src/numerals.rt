//! The integer that a value or a text is (Python Standard Library, `int`), within the profile.
ghost use Rattle.std.specs.Prelude.{◌≡◌, ◌-◌, ◌^◌, min, option_map, Ok};
ghost use Rattle.std.specs.List.{list_all};
ghost use Rattle.pyd_ops.specs.Answer.{outcome_of};
ghost use Rattle.pyd_ops.specs.Integer.{within};
ghost use Rattle.pyd_text.specs.Numerals as spec;
ghost use Rattle.pyd_text.specs.Texts as texts;

use crate::answer::{exceed, raise};
use pyd_value::{Kind, Limit, NoMemory, Outcome, Text, Value};

/// What `int(a)` gives (docs/LANGUAGE.md, "Texts of values"): the integer that a number is or a text
/// writes. `Outside` for a text with a byte outside 0x20 to 0x7E, `ValueError` for one that is no
/// numeral, `IntLimit` for a numeral that is too wide, `TypeError` for any other value.
pub fn int_of(a: &Value, line: u32) -> Result<Outcome, NoMemory>
    ensures { result ≡ Ok (outcome_of (texts.int_of a.now line)) }
{
    match a {
        Value::Int(n) => Ok(Outcome::Ok(Value::Int(*n))),
        Value::Bool(b) => Ok(Outcome::Ok(Value::Int(i128::from(*b)))),
        Value::Text(text) => Ok(int_of_text(text, line)),
        Value::Tuple(_) | Value::None => Ok(raise(Kind::TypeError, line)),
    }
}

fn int_of_text(text: &Text, line: u32) -> Outcome
    ensures { result ≡ outcome_of (texts.int_of_text text.now line) }
{
    if text.is_ascii() && are_readable(text.as_str().as_bytes()) {
        int_of_signed(strip(text.as_str().as_bytes()), line)
    } else {
        exceed(Limit::Outside, line)
    }
}

fn are_readable(s: &[u8]) -> bool
    ensures { result ≡ list_all spec.is_readable s.now }
{
    for c in s {
        if *c < 0x20 || *c > 0x7e {
            return false;
        }
    }
    true
}

fn strip(s: &[u8]) -> &[u8]
    ensures { result.now ≡ spec.strip s.entry.now }
{
    without_spaces_behind(without_spaces_before(s))
}

fn without_spaces_before(mut s: &[u8]) -> &[u8]
    ensures { result.now ≡ spec.without_spaces_before s.entry.now }
{
    while let [c, rest @ ..] = s {
        if *c != b' ' {
            return s;
        }
        s = rest;
    }
    s
}

fn without_spaces_behind(mut s: &[u8]) -> &[u8]
    ensures { result.now ≡ spec.without_spaces_behind s.entry.now }
{
    while let [rest @ .., c] = s {
        if *c != b' ' {
            return s;
        }
        s = rest;
    }
    s
}

fn int_of_signed(s: &[u8], line: u32) -> Outcome
    ensures { result ≡ outcome_of (texts.int_if_any (spec.signed_numeral s.now) line) }
{
    match s {
        [b'-', digits @ ..] => int_of_numeral(true, digits, line),
        [b'+', digits @ ..] => int_of_numeral(false, digits, line),
        _ => int_of_numeral(false, s, line),
    }
}

fn int_of_numeral(is_negative: bool, s: &[u8], line: u32) -> Outcome
    ensures { result ≡ outcome_of (texts.int_if_any
        (option_map (spec.signed is_negative) (spec.numeral s.now)) line) }
{
    if !is_numeral(s) {
        return raise(Kind::ValueError, line);
    }
    match signed(is_negative, numeral_value(s)) {
        Some(n) => Outcome::Ok(Value::Int(n)),
        None => exceed(Limit::Int, line),
    }
}

fn signed(is_negative: bool, n: u128) -> Option<i128>
    ensures { result ≡ within (spec.signed is_negative n) }
{
    if is_negative {
        0i128.checked_sub_unsigned(n)
    } else {
        0i128.checked_add_unsigned(n)
    }
}

/// Whether the text is digits that single underscores may divide.
fn is_numeral(s: &[u8]) -> bool
    ensures { result ≡ spec.is_numeral s.now }
{
    let mut after_digit = false;
    for c in s {
        if c.is_ascii_digit() {
            after_digit = true;
        } else if *c == b'_' && after_digit {
            after_digit = false;
        } else {
            return false;
        }
    }
    after_digit
}

/// The number that the digits write, cut to 2^128 - 1.
fn numeral_value(s: &[u8]) -> u128
    ensures { result ≡ min (spec.numeral_value s.now) (2 ^ 128 - 1) }
{
    let mut n: u128 = 0;
    for c in s {
        if c.is_ascii_digit() {
            n = n.saturating_mul(10).saturating_add(u128::from(*c - b'0'));
        }
    }
    n
}
