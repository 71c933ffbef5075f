//! The command, as `clap` is told of it.
ghost use Rattle.std.specs.Prelude.{◌≡◌, IfOk, IfErr, fold, map, false, option_map, string_bytes};
ghost use Rattle.clap.specs.Words.{app_of, found_of, kind_of, matches_of, rows_of, with_rule};
ghost use Rattle.pyd_words.specs.Answers.{IsStopOf, StopsLine};
ghost use Rattle.pyd_words.specs.Command as spec;
ghost use Rattle.pyd_words.specs.Rows.{choice_of};

use crate::fault::{WordsFault, WordsStop};
use crate::options::{Choice, OPTIONS};
use clap::error::ErrorKind;
use clap::{Arg, ArgMatches, Command, Error};
use std::alloc::{AllocError, Global};

/// The name of the program, which stands before the words.
pub const PROGRAM: &str = "pydron";

/// The name of the positional argument.
pub const MODE: &str = "mode";

/// The words behind the program's name.
pub fn all_words<'a>(alloc: Global, words: &'a [String]) -> Result<Vec<&'a str>, AllocError>
    ensures { IfOk result (λ all.
        map (λ z. z.now) all.items ≡ spec.all_words (map string_bytes words.entry.now)) }
{
    let mut all = Vec::new(alloc);
    all.push(PROGRAM)?;
    for word in words {
        all.push(word.as_str())?;
    }
    Ok(all)
}

/// What `clap` makes of all the words by the command's definition.
pub fn matches<'a>(alloc: Global, all: &'a [&'a str]) -> Result<ArgMatches<'a>, WordsStop>
    ensures taken { IfOk result (λ m. spec.has_fault (map (λ z. z.now) all.entry.now) ≡ false) }
    ensures rows { IfOk result (λ m.
        rows_of (found_of m) ≡ matches_of spec.app (map (λ z. z.now) all.entry.now)) }
    ensures err { IfErr result (StopsLine (spec.has_fault (map (λ z. z.now) all.entry.now))) }
{
    let command = command(alloc)?;
    match command.try_get_matches_from(all) {
        Ok(matches) => Ok(matches),
        Err(error) => Err(stop_of(&error)),
    }
}

/// Want of memory, or words that are no command line.
fn stop_of(error: &Error) -> WordsStop
    ensures { IsStopOf (kind_of error.now) result }
{
    if error.kind() == ErrorKind::OutOfMemory {
        WordsStop::NoMemory
    } else {
        WordsStop::Fault(WordsFault::Line)
    }
}

/// The value that is given under this name.
pub fn value<'a>(matches: &ArgMatches<'a>, name: &str) -> Option<&'a str>
    ensures { option_map (λ z. z.now) result
        ≡ spec.value name.now (rows_of (found_of matches.now)) }
{
    matches.get_str(name)
}

/// The command with its mode and its options.
fn command<'a>(alloc: Global) -> Result<Command<'a>, AllocError>
    ensures { IfOk result (λ c. app_of c ≡ spec.app) }
{
    let command = bare_command(alloc)?;
    with_options(alloc, command, &OPTIONS)
}

/// The command with more options, in their order.
fn with_options<'a>(
    alloc: Global,
    mut command: Command<'a>,
    options: &[Choice],
) -> Result<Command<'a>, AllocError>
    ensures { IfOk result (λ c.
        app_of c ≡ fold (λ app o. spec.with_choice app (choice_of o))
        (app_of command.entry) options.now) }
{
    for option in options {
        command = with_option(alloc, command, option.name())?;
    }
    Ok(command)
}

/// The command with its mode alone.
fn bare_command<'a>(alloc: Global) -> Result<Command<'a>, AllocError>
    ensures { IfOk result (λ c. app_of c ≡ spec.bare_app) }
{
    Command::new(alloc, PROGRAM).arg(Arg::new(alloc, MODE).required(true))
}

/// The command with one option more.
fn with_option<'a>(
    alloc: Global,
    command: Command<'a>,
    name: &'a str,
) -> Result<Command<'a>, AllocError>
    ensures { IfOk result (λ c.
        app_of c ≡ with_rule (app_of command.entry) (spec.option_rule name.entry.now)) }
{
    command.arg(Arg::new(alloc, name).long(name))
}
