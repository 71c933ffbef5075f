//! Numbers among the words.
ghost use Rattle.std.specs.Prelude.{◌≡◌, ◌≤◌, ◌<◌, ◌^◌, IfOk};
ghost use Rattle.std.specs.Char.{is_ascii_digit};
ghost use Rattle.std.specs.List.{list_all};
ghost use Rattle.clap.specs.Words.{found_of, rows_of};
ghost use Rattle.pyd_words.specs.Numbers as spec;
ghost use Rattle.pyd_words.specs.Words.{number_in};
ghost use Rattle.pyd_words.specs.Rows.{numeral_of};

use crate::command::value;
use crate::fault::WordsFault;
use crate::options::Numeral;
use clap::ArgMatches;

/// How many digits the value of an option may have.
pub const MOST_DIGITS: usize = 20;

/// How many digits a number of a loss script may have.
const MOST_SCRIPT_DIGITS: usize = 10;

/// Whether a text is from 1 to so many digits and nothing else.
pub fn is_digits(most: usize, text: &str) -> bool
    ensures { result ≡ spec.is_digits most text.now }
{
    !text.is_empty() && text.len() <= most && are_digits(text)
}

/// Whether each byte is a digit.
fn are_digits(text: &str) -> bool
    ensures { result ≡ list_all is_ascii_digit text.now }
{
    text.bytes().all(|b| b.is_ascii_digit())
}

/// The number of an option, its default where none is given.
pub fn number_in(option: &Numeral, matches: &ArgMatches<'_>) -> Result<u64, WordsFault>
    requires { option.now.default ≤ option.now.most }
    ensures value { result ≡ number_in (numeral_of option.now) (rows_of (found_of matches.now)) }
    ensures within { IfOk result (λ n. n ≤ option.now.most) }
{
    match value(matches, option.name) {
        Some(text) => ranged(*option, text),
        None => Ok(option.default),
    }
}

/// The number of an option whose limits fit 32 bits.
pub fn narrow_in(option: &Numeral, matches: &ArgMatches<'_>) -> Result<u32, WordsFault>
    requires default { option.now.default ≤ option.now.most }
    requires narrow { option.now.most < 2 ^ 32 }
    ensures { result ≡ number_in (numeral_of option.now) (rows_of (found_of matches.now)) }
{
    match number_in(option, matches) {
        Ok(n) => Ok(n as u32),
        Err(fault) => Err(fault),
    }
}

/// The number that is the value of an option.
fn ranged(option: Numeral, text: &str) -> Result<u64, WordsFault>
    ensures value { result ≡ spec.ranged (numeral_of option) text.now }
    ensures within { IfOk result (λ n. n ≤ option.most) }
{
    if !is_digits(MOST_DIGITS, text) {
        return Err(WordsFault::BadNumber);
    }
    match text.parse::<u64>() {
        Ok(n) => within(option, n),
        Err(_) => Err(WordsFault::OutOfRange),
    }
}

/// A number within the limits of its option.
fn within(option: Numeral, n: u64) -> Result<u64, WordsFault>
    ensures value { result ≡ spec.within (numeral_of option) n }
    ensures within { IfOk result (λ n. n ≤ option.most) }
{
    if option.least <= n && n <= option.most {
        Ok(n)
    } else {
        Err(WordsFault::OutOfRange)
    }
}

/// The number that a part of an entry of a loss script is.
pub fn script_number(text: &str) -> Option<u32>
    ensures { result ≡ spec.script_number text.now }
{
    if !is_digits(MOST_SCRIPT_DIGITS, text) {
        return None;
    }
    text.parse::<u32>().ok()
}
