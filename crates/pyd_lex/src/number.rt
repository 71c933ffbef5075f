//! Integer literals.

ghost use Rattle.std.specs.Prelude.{◌≡◌, ◌≤◌, ◌<◌, ◌+◌, ◌*◌, pos, IfSome};
ghost use Rattle.std.specs.Char.{digit_value, is_digit};
ghost use Rattle.pyd_value.specs.Limits.{integer_bound};
ghost use Rattle.pyd_lex.specs.Numbers as spec;

use crate::TokenKind;
use crate::fault::Flaw;
use crate::run::begins;
use pyd_value::INTEGER_BOUND;

/// The token that a run of digits and letters is, whose first character is a digit.
#[tactic(auto, unfolding(crate::specs::Numbers::number))]
pub fn number(text: &[char]) -> Result<TokenKind, Flaw>
    ensures { result ≡ spec.number text.now }
{
    let base = radix(text);
    let digits = digits(base, text);
    if !is_digits(base, digits) {
        return Err(Flaw::BadNumber);
    }
    let amount = amount(base, digits);
    if has_leading_zero(base, text, amount) {
        return Err(Flaw::BadNumber);
    }
    sized(amount)
}

fn is_digits(base: u32, digits: &[char]) -> bool
    requires { (2 ≤ base) × (base ≤ 16) }
    ensures { result ≡ spec.is_digits base digits.now }
{
    !digits.is_empty() && has_single_underscores(base, digits)
}

/// Whether it is a decimal that begins with a zero and isn't zeros only.
fn has_leading_zero(base: u32, text: &[char], amount: Option<u128>) -> bool
    ensures { result ≡ spec.has_leading_zero base text.now amount }
{
    base == 10 && begins(b"0", text) && !is_zero(amount)
}

fn is_zero(amount: Option<u128>) -> bool
    ensures { result ≡ spec.is_zero amount }
{
    match amount {
        Some(n) => n == 0,
        None => false,
    }
}

fn sized(amount: Option<u128>) -> Result<TokenKind, Flaw>
    requires { IfSome amount (λ n. n < integer_bound) }
    ensures { result ≡ spec.sized amount }
{
    match amount {
        Some(n) => Ok(TokenKind::Int(signed(n))),
        None => Err(Flaw::WideNumber),
    }
}

fn signed(n: u128) -> i128
    requires { n < integer_bound }
    ensures { result ≡ pos n }
{
    n as i128
}

fn radix_of(x: char) -> u32
    ensures value { result ≡ spec.radix_of x }
    ensures within { (2 ≤ result) × (result ≤ 16) }
{
    match x {
        'x' | 'X' => 16,
        'o' | 'O' => 8,
        'b' | 'B' => 2,
        _ => 10,
    }
}

fn radix(text: &[char]) -> u32
    ensures value { result ≡ spec.radix text.now }
    ensures within { (2 ≤ result) × (result ≤ 16) }
{
    match text {
        ['0', x, ..] => radix_of(*x),
        _ => 10,
    }
}

/// The digits after the prefix, if there is one.
fn digits(base: u32, text: &[char]) -> &[char]
    requires { base ≡ spec.radix text.now }
    ensures { result.now ≡ spec.digits text.entry.now }
{
    match text {
        [_, _, rest @ ..] if base != 10 => rest,
        _ => text,
    }
}

/// Whether each digit stands alone or after one underscore.
fn has_single_underscores(base: u32, mut text: &[char]) -> bool
    requires { (2 ≤ base) × (base ≤ 16) }
    ensures { result ≡ spec.has_single_underscores base text.entry.now }
{
    while let [c, rest @ ..] = text {
        if *c != '_' {
            if !c.is_digit(base) {
                return false;
            }
            text = rest;
            continue;
        }
        match rest {
            [d, more @ ..] if d.is_digit(base) => text = more,
            _ => return false,
        }
    }
    true
}

fn digit(c: char) -> u32
    ensures value { result ≡ digit_value c }
    ensures within { result ≤ 36 }
{
    c.to_digit(36).unwrap_or(36)
}

/// The number one digit longer, where it isn't too wide.
fn longer(base: u32, n: u128, c: char) -> Option<u128>
    ensures { result ≡ spec.bounded (n * base + digit_value c) }
{
    let n = n
        .checked_mul(u128::from(base))?
        .checked_add(u128::from(digit(c)))?;
    if n < INTEGER_BOUND { Some(n) } else { None }
}

/// The value of the digits, where it isn't too wide.
fn amount(base: u32, mut text: &[char]) -> Option<u128>
    requires { 1 ≤ base }
    ensures { result ≡ spec.bounded (spec.amount base 0 text.entry.now) }
{
    let mut n = 0;
    while let [c, rest @ ..] = text {
        if *c != '_' {
            match longer(base, n, *c) {
                Some(more) => n = more,
                None => return None,
            }
        }
        text = rest;
    }
    Some(n)
}
