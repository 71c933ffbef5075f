//! Runs of characters, and characters by what they begin.

ghost use Rattle.std.specs.Prelude.{◌≡◌, ◌≤◌, length};
ghost use Rattle.std.specs.Str.{bytes_eq};
ghost use Rattle.std.specs.List.{prefix_len};
ghost use Rattle.pyd_lex.specs.Words as words;
ghost use Rattle.pyd_lex.specs.Spelling as spec;

use unicode_ident::{is_xid_continue, is_xid_start};

/// What a character begins.
#[derive(Clone, Copy, Debug, PartialEq, Eq)]
pub enum Class {
    Return,
    Hash,
    Quote,
    Digit,
    Letter,
    Other,
}

#[tactic(auto, unfolding(crate::specs::Spelling::class_of))]
pub fn class_of(c: char) -> Class
    ensures { result ≡ spec.class_of c }
{
    match c {
        '\r' => Class::Return,
        '#' => Class::Hash,
        '"' | '\'' => Class::Quote,
        _ => word_class(c),
    }
}

fn word_class(c: char) -> Class
    ensures { result ≡ spec.word_class c }
{
    if c.is_ascii_digit() {
        Class::Digit
    } else if c == '_' || is_xid_start(c) {
        Class::Letter
    } else {
        Class::Other
    }
}

/// Whether a comment may go on with the character.
fn in_comment(c: char) -> bool
    ensures { result ≡ spec.in_comment c }
{
    c != '\0' && c != '\n' && c != '\r'
}

/// The length of the run of name characters at the front.
pub fn name_run(text: &[char]) -> usize
    ensures value { result ≡ prefix_len spec.continues text.now }
    ensures within { result ≤ length text.now }
{
    let mut n = 0;
    while n < text.len() && is_xid_continue(text[n]) {
        n += 1;
    }
    n
}

/// The length of the run of a comment's characters at the front.
pub fn comment_run(text: &[char]) -> usize
    ensures value { result ≡ prefix_len spec.in_comment text.now }
    ensures within { result ≤ length text.now }
{
    let mut n = 0;
    while n < text.len() && in_comment(text[n]) {
        n += 1;
    }
    n
}

/// Whether the text begins with the spelling.
pub fn begins(mut spelling: &[u8], mut text: &[char]) -> bool
    ensures { result ≡ words.begins spelling.entry.now text.entry.now }
{
    while let [a, spelling_rest @ ..] = spelling {
        match text {
            [b, text_rest @ ..] if u32::from(*a) == u32::from(*b) => text = text_rest,
            _ => return false,
        }
        spelling = spelling_rest;
    }
    true
}

/// Whether the text is the spelling.
pub fn same(spelling: &[u8], text: &[char]) -> bool
    ensures { result ≡ bytes_eq spelling.now text.now }
{
    spelling.len() == text.len() && begins(spelling, text)
}
