//! The text of a string token.

ghost use Rattle.std.specs.Prelude.{◌≡◌, IfOk, IfSome, IfNone, ◌≤◌, length, string_bytes};
ghost use Rattle.std.specs.Str.{chars};
ghost use Rattle.pyd_lex.specs.Strings as spec;
ghost use Rattle.pyd_lex.specs.Quoted as quoted;
ghost use Rattle.pyd_lex.specs.Quoted.{spelling};
ghost use Rattle.pyd_lex.specs.Texts.{IsTextOf, spelling_of, utf8};
ghost use Rattle.pyd_lex.specs.TokenBytes.{IsName, IsSpelled};

use crate::string::{Part, Quotes, escape, opening};
use crate::{Token, TokenKind};
use pyd_value::NoMemory;
use std::alloc::{AllocError, Global};

/// The value of a string token of these bytes.
pub fn text_of(alloc: Global, bytes: &[u8], token: &Token) -> Result<String, NoMemory>
    ensures { IfOk result (λ text. IsTextOf bytes.now token.now (string_bytes text)) }
{
    match str::from_utf8(bytes_of(bytes, token)) {
        Ok(text) => {
            let text = characters(alloc, text)?;
            value(alloc, text.as_slice())
        }
        Err(_) => Ok(String::new(alloc)),
    }
}

/// The name that a name token of these bytes is. Takes no memory.
pub fn name_of<'a>(bytes: &'a [u8], token: &Token) -> &'a str
    requires kind { token.now.kind ≡ TokenKind.Name }
    requires spelled { IsSpelled bytes.now token.now }
    ensures bytes { result.now ≡ spelling_of bytes.entry.now token.now.from token.now.to }
    ensures name { IsName (chars result.now) }
{
    match str::from_utf8(bytes_of(bytes, token)) {
        Ok(name) => name,
        Err(_) => "",
    }
}

/// The characters of a text.
pub fn characters(alloc: Global, text: &str) -> Result<Vec<char>, AllocError>
    ensures { IfOk result (λ all. all.items ≡ chars text.now) }
{
    text.chars().collect(alloc)
}

/// The bytes that spell a token.
fn bytes_of<'a>(bytes: &'a [u8], token: &Token) -> &'a [u8]
    ensures { result.now ≡ spelling_of bytes.entry.now token.now.from token.now.to }
{
    let (front, _) = bytes.split_at(bytes.len().min(token.to as usize));
    let (_, spelling) = front.split_at(front.len().min(token.from as usize));
    spelling
}

/// The value of a string that is spelled so.
fn value(alloc: Global, text: &[char]) -> Result<String, NoMemory>
    ensures { IfOk result (λ s. string_bytes s ≡ utf8 (spec.string_value text.now)) }
{
    if text.is_empty() {
        return Ok(String::new(alloc));
    }
    let (_, tail) = text.split_at(1);
    let quotes = opening(text[0], tail);
    let (_, inner) = tail.split_at(quotes.more());
    written(alloc, quotes, inner)
}

/// The value of a string from after its opening quotes on.
fn written(alloc: Global, quotes: Quotes, text: &[char]) -> Result<String, NoMemory>
    ensures { IfOk result (λ s. string_bytes s ≡ utf8 (spec.value (spelling quotes) text.now)) }
{
    let mut out = String::new(alloc);
    let mut rest = text;
    while let Some((c, len)) = first(quotes, rest) {
        out.push(c)?;
        let (_, more) = rest.split_at(len);
        rest = more;
    }
    Ok(out)
}

/// The first character of the value of what is left, and the length of its spelling.
fn first(quotes: Quotes, text: &[char]) -> Option<(char, usize)>
    ensures { result ≡ quoted.first (spelling quotes) text.now }
{
    match quotes.part(text) {
        Part::Plain => plain(text),
        Part::Backslash => escaped(text),
        _ => None,
    }
}

fn plain(text: &[char]) -> Option<(char, usize)>
    ensures { result ≡ quoted.plain text.now }
{
    match text {
        ['\r', '\n', ..] => Some(('\n', 2)),
        ['\r', ..] => Some(('\n', 1)),
        [c, ..] => Some((*c, 1)),
        [] => None,
    }
}

fn escaped(text: &[char]) -> Option<(char, usize)>
    ensures { result ≡ quoted.escaped text.now }
{
    match text {
        [_, d, ..] => match escape(*d) {
            Some(c) => Some((c, 2)),
            None => None,
        },
        _ => None,
    }
}
