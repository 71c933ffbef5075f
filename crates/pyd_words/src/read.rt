//! The plan of the words.
ghost use Rattle.std.specs.Prelude.{◌≡◌, map, string_bytes, IfOk};
ghost use Rattle.clap.specs.Words.{found_of, rows_of};
ghost use Rattle.pyd_words.specs.Words as spec;
ghost use Rattle.pyd_words.specs.Answers.{Answers};
ghost use Rattle.pyd_words.specs.Rows.{choice_of};

use crate::command::{MODE, all_words, matches, value};
use crate::fault::{WordsFault, WordsStop};
use crate::losses::{ordered, script};
use crate::number::{MOST_DIGITS, is_digits, narrow_in, number_in};
use crate::options::{Choice, DEPTH, MACHINES, MODES, NUMBER, OPTIONS, TURNS, WINDOW, WORKERS};
use crate::plan::{Mode, Numbers, Plan};
use clap::ArgMatches;
use pyd_board::Loss;
use pyd_value::List;
use std::alloc::Global;

/// The plan of the words behind the program's name, or the first fault in them (docs/FORMATS.md,
/// "Words"). `Line` comes exactly where the words are no command line by the command's definition.
pub fn read_words(alloc: Global, words: &[String]) -> Result<Plan, WordsStop>
    ensures { Answers (spec.words (map string_bytes words.now)) result }
{
    let all = all_words(alloc, words)?;
    let matches = matches(alloc, all.as_slice())?;
    plan(alloc, &matches)
}

/// The plan of what is given.
fn plan(alloc: Global, matches: &ArgMatches<'_>) -> Result<Plan, WordsStop>
    ensures { Answers (spec.plan (rows_of (found_of matches.now))) result }
{
    let mode = mode_in(matches)?;
    if !are_formed(&OPTIONS, matches) {
        return Err(WordsStop::Fault(WordsFault::BadNumber));
    }
    settings(alloc, mode, matches)
}

/// The mode that is given.
fn mode_in(matches: &ArgMatches<'_>) -> Result<Mode, WordsFault>
    ensures { result ≡ spec.mode_in (rows_of (found_of matches.now)) }
{
    match value(matches, MODE) {
        Some(text) => mode_of(text).ok_or(WordsFault::BadMode),
        None => Err(WordsFault::BadMode),
    }
}

/// The mode of this name.
fn mode_of(name: &str) -> Option<Mode>
    ensures { result ≡ spec.mode_of name.now }
{
    named(&MODES, name)
}

/// Whether each value that is given has its form.
fn are_formed(mut options: &[Choice], matches: &ArgMatches<'_>) -> bool
    ensures { result
        ≡ spec.are_formed (map choice_of options.entry.now) (rows_of (found_of matches.now)) }
{
    while let [option, rest @ ..] = options {
        if let Some(text) = value(matches, option.name())
            && !is_formed(option, text)
        {
            return false;
        }
        options = rest;
    }
    true
}

/// Whether a text has the form of an option's value.
fn is_formed(option: &Choice, text: &str) -> bool
    ensures { result ≡ spec.is_formed (choice_of option.now) text.now }
{
    match option {
        Choice::Numeral(_) => is_digits(MOST_DIGITS, text),
        Choice::Place => text == "round" || text == "near",
        Choice::Lose => true,
    }
}

/// The settings: first the numbers, then the script, then whether a number stands where the mode
/// wants one.
fn settings(alloc: Global, mode: Mode, matches: &ArgMatches<'_>) -> Result<Plan, WordsStop>
    ensures { Answers (spec.settings mode (rows_of (found_of matches.now))) result }
{
    let numbers = numbers(matches)?;
    let losses = losses_in(alloc, numbers.machines, matches)?;
    if !number_stands(mode, matches) {
        return Err(WordsStop::Fault(WordsFault::NumberWhere));
    }
    Ok(Plan {
        mode,
        machines: numbers.machines,
        workers: numbers.workers,
        turns: numbers.turns,
        depth: numbers.depth,
        window: numbers.window,
        near: near_in(matches),
        losses,
        number: numbers.number,
    })
}

/// The numbers of the options in their order.
fn numbers(matches: &ArgMatches<'_>) -> Result<Numbers, WordsFault>
    ensures { result ≡ spec.numbers (rows_of (found_of matches.now)) }
{
    let machines = narrow_in(&MACHINES, matches)?;
    let workers = narrow_in(&WORKERS, matches)?;
    let turns = number_in(&TURNS, matches)?;
    let depth = narrow_in(&DEPTH, matches)?;
    let window = narrow_in(&WINDOW, matches)?;
    let number = number_in(&NUMBER, matches)?;
    Ok(Numbers {
        machines,
        workers,
        turns,
        depth,
        window,
        number,
    })
}

/// Whether nodes are to be placed near their inputs.
fn near_in(matches: &ArgMatches<'_>) -> bool
    ensures { result ≡ spec.near_in (rows_of (found_of matches.now)) }
{
    match value(matches, Choice::Place.name()) {
        Some(text) => text == "near",
        None => false,
    }
}

/// The losses of the script in order, none where no script is given.
fn losses_in(
    alloc: Global,
    machines: u32,
    matches: &ArgMatches<'_>,
) -> Result<List<Loss>, WordsStop>
    ensures { Answers (spec.losses_in machines (rows_of (found_of matches.now))) result }
{
    match value(matches, Choice::Lose.name()) {
        Some(text) => ordered_script(alloc, machines, text),
        None => ordered(alloc, machines, &[]),
    }
}

/// The losses of a script in order.
fn ordered_script(alloc: Global, machines: u32, text: &str) -> Result<List<Loss>, WordsStop>
    ensures { Answers (spec.ordered_script machines text.now) result }
{
    match script(alloc, text)? {
        Some(losses) => ordered(alloc, machines, losses.as_slice()),
        None => Err(WordsStop::Fault(WordsFault::BadScript)),
    }
}

/// Whether a number is given exactly where the mode wants one.
fn number_stands(mode: Mode, matches: &ArgMatches<'_>) -> bool
    ensures { result ≡ spec.number_stands mode (rows_of (found_of matches.now)) }
{
    let given = value(matches, NUMBER.name).is_some();
    if wants_number(mode) { given } else { !given }
}

/// Whether the mode runs the generated source, of which a number is asked.
fn wants_number(mode: Mode) -> bool
    ensures { result ≡ spec.wants_number mode }
{
    match mode {
        Mode::Demo => true,
        Mode::Run | Mode::Trace | Mode::Check | Mode::Graph | Mode::Replay => false,
    }
}

/// What the first row with this very name has.
fn named(mut modes: &[(&str, Mode)], name: &str) -> Option<Mode>
    ensures { result ≡ spec.named (map (λ row. (row.0.now, row.1)) modes.entry.now) name.now }
{
    while let [row, rest @ ..] = modes {
        if row.0 == name {
            return Some(row.1);
        }
        modes = rest;
    }
    None
}
