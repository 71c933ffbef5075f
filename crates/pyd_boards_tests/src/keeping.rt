//! The journal of the board, and which tickets are left.
ghost use Rattle.std.specs.Prelude.{◌≡◌, ◌++◌, ◌∷◌, [], OnOk, OnErr};
ghost use Rattle.pyd_boards.specs.Boards.{entry};
ghost use Rattle.pyd_boards.specs.Calls.{halted_by};
ghost use Rattle.pyd_boards_tests.specs.Fixed as spec;

use pyd_board::{Act, Event, Halt, entries};
use pyd_value::NoMemory;

// Appends an entry of the seat. Where there is no memory, nothing changes.
pub(crate) fn append(journal: &mut Vec<Event>, by: u32, act: Act) -> Result<(), NoMemory>
    ensures ok { OnOk result (journal.new.items
        ≡ journal.old.items ++ entry journal.old.items by act ∷ []) }
    ensures same { OnErr result (journal.new.items ≡ journal.old.items) }
{
    let nth = entries(by, journal.as_slice()) as u64;
    journal.push(Event { by, nth, act })?;
    Ok(())
}

// Whether the first attempt of one of the nodes is asked for, and nobody has claimed it.
pub(crate) fn is_live(count: u32, events: &[Event], node: u64, attempt: u64) -> bool
    ensures { result ≡ spec.is_live count events.now node attempt }
{
    node < count as u64 && attempt == 1 && claims_of(node, events) == 0
}

fn claims_of(node: u64, events: &[Event]) -> usize
    ensures { result ≡ spec.claims_of node events.now }
{
    events
        .iter()
        .filter(|event| claims_node(node, event.act))
        .count()
}

fn claims_node(node: u64, act: Act) -> bool
    ensures { result ≡ spec.claims_node node act }
{
    match act {
        Act::Claim(other, _, _) => other == node,
        Act::Place(..)
        | Act::Finish(..)
        | Act::Drop(..)
        | Act::Refine(_)
        | Act::Settle(_)
        | Act::Lose(_)
        | Act::Trim(_) => false,
    }
}

// The first cause stays.
pub(crate) fn halted_by(before: Option<Halt>, why: Halt) -> Halt
    ensures { result ≡ halted_by before why }
{
    match before {
        None => why,
        Some(cause) => cause,
    }
}
