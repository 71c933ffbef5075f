//! A text between quotes, with escapes (Python Language Reference, section 2.4.1).
ghost use Rattle.std.specs.Prelude.{◌≡◌, ◌<◌, OnOk};
ghost use Rattle.std.specs.Char.{digit_char};
ghost use Rattle.std.specs.Str.{chars};
ghost use Rattle.pyd_text.specs.Quoting as spec;
ghost use Rattle.pyd_text.specs.Writing.{byte_count, cut, Appends, written};

use pyd_value::NoMemory;
use unicode::properties::{GeneralCategory, GeneralCategoryGroup};

/// How a character stands between quotes.
#[derive(Clone, Copy)]
pub(crate) enum Form {
    Plain(char),
    Backslash(char),
    Hexadecimal {
        letter: char,
        digits: u32,
        code: u32,
    },
}

/// The bytes of a text between its quotes.
pub(crate) fn quoted_len(s: &str) -> u64
    ensures { result ≡ cut (byte_count (spec.quoted (chars s.now))) }
{
    let quote = quote_of(s);
    let mut len: u64 = 2;
    for c in s.chars() {
        len = len.saturating_add(form_len(form_of(quote, c)));
    }
    len
}

/// Writes a text between its quotes.
pub(crate) fn write_quoted(out: &mut String, s: &str) -> Result<(), NoMemory>
    ensures { OnOk result (Appends out.old out.new (spec.quoted (chars s.now))) }
{
    let quote = quote_of(s);
    out.push(quote)?;
    for c in s.chars() {
        write_form(out, form_of(quote, c))?;
    }
    out.push(quote)?;
    Ok(())
}

fn quote_of(s: &str) -> char
    ensures { result ≡ spec.quote_of (chars s.now) }
{
    if has(s, '\'') && !has(s, '"') {
        '"'
    } else {
        '\''
    }
}

fn has(s: &str, c: char) -> bool
    ensures { result ≡ spec.has c (chars s.now) }
{
    for d in s.chars() {
        if d == c {
            return true;
        }
    }
    false
}

fn form_of(quote: char, c: char) -> Form
    ensures { written result ≡ spec.escaped quote c }
{
    match c {
        '\\' => Form::Backslash(c),
        _ if c == quote => Form::Backslash(c),
        '\n' => Form::Backslash('n'),
        '\r' => Form::Backslash('r'),
        '\t' => Form::Backslash('t'),
        _ if is_printable(c) => Form::Plain(c),
        _ => hexadecimal(c),
    }
}

fn is_printable(c: char) -> bool
    ensures { result ≡ spec.is_printable c }
{
    let category = GeneralCategory::for_char(c);
    c == ' '
        || !(GeneralCategoryGroup::Other.contains(category)
            || GeneralCategoryGroup::Separator.contains(category))
}

fn hexadecimal(c: char) -> Form
    ensures { written result ≡ spec.hex_escape c }
{
    let code = c as u32;
    let (letter, digits) = match code {
        0..0x100 => ('x', 2),
        0x100..0x1_0000 => ('u', 4),
        _ => ('U', 8),
    };
    Form::Hexadecimal {
        letter,
        digits,
        code,
    }
}

fn form_len(form: Form) -> u64
    ensures { result ≡ byte_count (written form) }
{
    match form {
        Form::Plain(c) => c.len_utf8() as u64,
        Form::Backslash(c) => 1 + c.len_utf8() as u64,
        Form::Hexadecimal { letter, digits, .. } => {
            1 + letter.len_utf8() as u64 + u64::from(digits)
        }
    }
}

fn write_form(out: &mut String, form: Form) -> Result<(), NoMemory>
    ensures { OnOk result (Appends out.old out.new (written form)) }
{
    match form {
        Form::Plain(c) => out.push(c)?,
        Form::Backslash(c) => {
            out.push('\\')?;
            out.push(c)?;
        }
        Form::Hexadecimal {
            letter,
            digits,
            code,
        } => {
            out.push('\\')?;
            out.push(letter)?;
            write_hex(out, digits, code)?;
        }
    }
    Ok(())
}

/// Writes the last so many hexadecimal digits of a number.
fn write_hex(out: &mut String, digits: u32, n: u32) -> Result<(), NoMemory>
    ensures { OnOk result (Appends out.old out.new (spec.hex_digits digits n)) }
{
    if digits == 0 {
        return Ok(());
    }
    write_hex(out, digits - 1, n / 16)?;
    out.push(hex_digit(n % 16))?;
    Ok(())
}

fn hex_digit(d: u32) -> char
    requires { d < 16 }
    ensures { result ≡ digit_char d }
{
    if d < 10 {
        (b'0' + d as u8) as char
    } else {
        (b'a' + (d - 10) as u8) as char
    }
}
