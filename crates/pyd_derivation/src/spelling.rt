//! The names and texts that tokens spell.
ghost use Rattle.std.specs.Prelude.{◌≡◌, [], IfOk};
ghost use Rattle.std.specs.Str.{chars};
ghost use Rattle.pyd_lex.specs.Texts.{spelling_of};
ghost use Rattle.pyd_derivation.specs.Pieces.{spelled, characters, text_in};

use pyd_lex::{Token, text_of};
use pyd_value::{NoMemory, Text};
use std::alloc::Global;

/// The bytes that spell a token.
fn bytes_of<'a>(bytes: &'a [u8], token: &Token) -> &'a [u8]
    ensures { result.now ≡ spelling_of bytes.entry.now token.now.from token.now.to }
{
    let (front, _) = bytes.split_at(bytes.len().min(token.to as usize));
    let (_, spelling) = front.split_at(front.len().min(token.from as usize));
    spelling
}

/// No characters.
pub fn empty(alloc: Global) -> Result<Text, NoMemory>
    ensures { IfOk result (λ text. text ≡ []) }
{
    Text::of(alloc, "")
}

/// The characters of bytes that are UTF-8.
fn characters(alloc: Global, bytes: &[u8]) -> Result<Text, NoMemory>
    ensures { IfOk result (λ text. text ≡ characters bytes.now) }
{
    match str::from_utf8(bytes) {
        Ok(text) => Text::of(alloc, text),
        Err(_) => empty(alloc),
    }
}

/// The characters that spell a token.
pub fn spelling(alloc: Global, bytes: &[u8], token: &Token) -> Result<Text, NoMemory>
    ensures { IfOk result (λ text. text ≡ spelled bytes.now token.now) }
{
    characters(alloc, bytes_of(bytes, token))
}

/// The value of a string token.
pub fn text_value(alloc: Global, bytes: &[u8], token: &Token) -> Result<Text, NoMemory>
    ensures { IfOk result (λ text. text ≡ text_in bytes.now token.now) }
{
    match str::from_utf8(bytes_of(bytes, token)) {
        Ok(_) => {
            let text = text_of(alloc, bytes, token)?;
            Text::of(alloc, text.as_str())
        }
        Err(_) => empty(alloc),
    }
}
