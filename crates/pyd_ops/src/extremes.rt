//! `min` and `max` (Python Standard Library, "Built-in Functions").
ghost use Rattle.std.specs.Prelude.{◌≡◌, max, min, Some};
ghost use Rattle.std.specs.List.{reduce};
ghost use Rattle.pyd_value.specs.Shape.{text};
ghost use Rattle.pyd_ops.specs.Answer.{Answers};
ghost use Rattle.pyd_ops.specs.Sequence.{items, items_in};
ghost use Rattle.pyd_ops.specs.Calls as spec;

use crate::answer::raise;
use crate::comparing::order;
use crate::sequence::character;
use pyd_value::{Kind, NoMemory, Outcome, Text, Value, try_copy};
use std::alloc::Global;

/// What `min` and `max` look for.
#[derive(Clone, Copy)]
pub(crate) enum Extreme {
    Least,
    Greatest,
}

/// The least or greatest of the arguments, or of the items of the only one.
pub(crate) fn choose(
    alloc: Global,
    which: Extreme,
    args: &[Value],
    line: u32,
) -> Result<Outcome, NoMemory>
    ensures { Answers result (spec.choose (spec.replaces which) args.now line) }
{
    match args {
        [] => Ok(raise(Kind::TypeError, line)),
        [a] => choose_item(alloc, which, a, line),
        [first, rest @ ..] => choose_best(alloc, which, first, rest, line),
    }
}

fn choose_item(alloc: Global, which: Extreme, a: &Value, line: u32) -> Result<Outcome, NoMemory>
    ensures { Answers result (spec.choose_item (spec.replaces which) (items a.now) line) }
{
    match a {
        Value::Text(text) => choose_character(alloc, which, text, line),
        Value::Tuple(members) => choose_member(alloc, which, members.as_slice(), line),
        _ => Ok(raise(Kind::TypeError, line)),
    }
}

fn choose_character(alloc: Global, which: Extreme, s: &Text, line: u32) -> Result<Outcome, NoMemory>
    ensures { Answers result (spec.choose_item (spec.replaces which) (items_in (text s.now)) line) }
{
    let chosen = match which {
        Extreme::Least => least(s),
        Extreme::Greatest => greatest(s),
    };
    match chosen {
        Some(c) => Ok(Outcome::Ok(character(alloc, c)?)),
        None => Ok(raise(Kind::ValueError, line)),
    }
}

fn greatest(text: &Text) -> Option<char>
    ensures { result ≡ reduce max text.now }
{
    text.as_str().chars().max()
}

fn least(text: &Text) -> Option<char>
    ensures { result ≡ reduce min text.now }
{
    text.as_str().chars().min()
}

fn choose_member(
    alloc: Global,
    which: Extreme,
    members: &[Value],
    line: u32,
) -> Result<Outcome, NoMemory>
    ensures { Answers result (spec.choose_item (spec.replaces which) (Some members.now) line) }
{
    match members {
        [] => Ok(raise(Kind::ValueError, line)),
        [first, rest @ ..] => choose_best(alloc, which, first, rest, line),
    }
}

fn choose_best(
    alloc: Global,
    which: Extreme,
    first: &Value,
    rest: &[Value],
    line: u32,
) -> Result<Outcome, NoMemory>
    ensures { Answers result (spec.choose_best (spec.replaces which) first.now rest.now line) }
{
    let mut best = first;
    for candidate in rest {
        match replaces(which, candidate, best) {
            Some(true) => best = candidate,
            Some(false) => {}
            None => return Ok(raise(Kind::TypeError, line)),
        }
    }
    Ok(Outcome::Ok(try_copy(alloc, best)?))
}

/// Whether a candidate is strictly less or greater than the best so far, where the two have an
/// order.
fn replaces(which: Extreme, candidate: &Value, best: &Value) -> Option<bool>
    ensures { result ≡ spec.replaces which candidate.now best.now }
{
    match which {
        Extreme::Least => order(candidate, best).map(|o| o.is_lt()),
        Extreme::Greatest => order(candidate, best).map(|o| o.is_gt()),
    }
}
