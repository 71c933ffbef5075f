//! What an event must be if bytes begin with its line. Whether they do, its line alone decides.
ghost use Rattle.std.specs.Prelude.{◌≡◌, ◌<◌, ◌≤◌, ◌^◌, ℕ, List, ◌∷◌, ◌++◌, [], take, length, slice_index, false, IfSome};
ghost use Rattle.std.specs.Prelude.{Some};
ghost use Rattle.std.specs.Char.{IsAsciiDigit};
ghost use Rattle.std.specs.Fmt.{decimal};
ghost use Rattle.pyd_board.specs.declared.event.Act.{Act as AnAct};
ghost use Rattle.pyd_board.specs.declared.event.Event.{Event as AnEvent};
ghost use Rattle.pyd_trace.specs.Text.{act_name, act_fields, act_text, line_text};
ghost use Rattle.pyd_trace.specs.Reading.{IsAct, IsEvent};
ghost use Rattle.pyd_trace.specs.Guessing.{has_space, CutsDigits, GuessesNumber, GuessesField, GuessesFields};

use memchr::memchr;
use pyd_board::{Act, Event};
use std::str;

/// The event whose line stands in front, if one does.
pub(crate) fn guess_event(bytes: &[u8]) -> Option<Event>
    ensures fits { IfSome result IsEvent }
    ensures value { (event : AnEvent) (more : List ℕ) → IsEvent event
        → bytes.now ≡ line_text event ++ more → result ≡ Some event }
{
    let (by, rest) = guess_number(bytes);
    let (nth, rest) = guess_field(rest);
    let act = guess_act(rest)?;
    let by = guess_narrow(by);
    Some(Event { by, nth, act })
}

/// The act that stands in front behind a space, if one does.
fn guess_act(bytes: &[u8]) -> Option<Act>
    ensures fits { IfSome result IsAct }
    ensures value { (act : AnAct) (more : List ℕ) → IsAct act
        → bytes.now ≡ 32 ∷ (act_text act ++ 10 ∷ more) → result ≡ Some act }
{
    let (_, name) = bytes.split_first()?;
    let (initial, _) = name.split_first()?;
    let (first, second, third) = guess_fields(behind_name(name));
    act_of(*initial, first, second, third)
}

/// What stands behind a name, from the space on.
fn behind_name(bytes: &[u8]) -> &[u8]
    ensures { (name fields : List ℕ) → has_space name ≡ false
        → bytes.now ≡ name ++ 32 ∷ fields → result.now ≡ 32 ∷ fields }
{
    match memchr(b' ', bytes) {
        Some(end) => bytes.split_at(end).1,
        None => bytes,
    }
}

/// The act whose name begins with this letter, of these numbers as far as it has fields.
fn act_of(initial: u8, first: u64, second: u64, third: u64) -> Option<Act>
    ensures fits { IfSome result IsAct }
    ensures value { (act : AnAct) → IsAct act → initial ≡ slice_index (act_name act) 0
        → take (length (act_fields act)) (first ∷ second ∷ third ∷ []) ≡ act_fields act
        → result ≡ Some act }
{
    match initial {
        b'P' => Some(Act::Place(first, second, guess_narrow(third))),
        b'C' => Some(Act::Claim(first, second, guess_narrow(third))),
        b'F' => Some(Act::Finish(first, second, guess_narrow(third))),
        b'D' => Some(Act::Drop(first, second, guess_narrow(third))),
        b'R' => Some(Act::Refine(first)),
        b'S' => Some(Act::Settle(first)),
        b'L' => Some(Act::Lose(guess_narrow(first))),
        b'T' => Some(Act::Trim(first)),
        _ => None,
    }
}

/// Up to three numbers, each behind a space.
fn guess_fields(bytes: &[u8]) -> (u64, u64, u64)
    ensures { GuessesFields bytes.now result.0 result.1 result.2 }
{
    let (first, rest) = guess_field(bytes);
    let (second, rest) = guess_field(rest);
    let (third, _) = guess_field(rest);
    (first, second, third)
}

/// The number that stands in front behind a space, and the rest.
fn guess_field(bytes: &[u8]) -> (u64, &[u8])
    ensures { GuessesField bytes.now result.0 result.1.now }
{
    match bytes.split_first() {
        Some((_, digits)) => guess_number(digits),
        None => (0, bytes),
    }
}

/// The number that stands in front, and the rest.
fn guess_number(bytes: &[u8]) -> (u64, &[u8])
    ensures { GuessesNumber bytes.now result.0 result.1.now }
{
    let (digits, rest) = cut_digits(bytes);
    (number_of(digits), rest)
}

/// The number whose digits these are, if they are one's.
fn number_of(digits: &[u8]) -> u64
    ensures { (number : ℕ) → number < 2 ^ 64 → digits.now ≡ decimal number → result ≡ number }
{
    match str::from_utf8(digits) {
        Ok(text) => text.parse::<u64>().unwrap_or(0),
        Err(_) => 0,
    }
}

/// The number as a `u32`, if it is within it.
fn guess_narrow(number: u64) -> u32
    ensures { number < 2 ^ 32 → result ≡ number }
{
    u32::try_from(number).unwrap_or(0)
}

/// The digits in front, and the rest.
fn cut_digits(bytes: &[u8]) -> (&[u8], &[u8])
    ensures { CutsDigits bytes.now result.0.now result.1.now }
{
    bytes.split_at(digit_count(bytes))
}

/// How many digits stand in front.
fn digit_count(bytes: &[u8]) -> usize
    ensures within { result ≤ length bytes.now }
    ensures digits { (k : ℕ) → k < result → IsAsciiDigit (slice_index bytes.now k) }
    ensures ends { result < length bytes.now → ¬ IsAsciiDigit (slice_index bytes.now result) }
{
    for (i, byte) in bytes.iter().enumerate() {
        if !byte.is_ascii_digit() {
            return i;
        }
    }
    bytes.len()
}
