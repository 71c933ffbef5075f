//! The stores of machines, and claims that are kept apart.
ghost use Rattle.std.specs.Prelude.{◌≡◌, ◌<◌, OnOk, OnErr, false, get_or, length, set, vec_len, vec_capacity};
ghost use Rattle.std.specs.FinMap as map;
ghost use Rattle.std.specs.Option.{option_copied};
ghost use Rattle.pyd_desk.specs.Desks as spec;

use crate::desk::{Held, Undone};
use pyd_store::Store;
use pyd_value::{NoMemory, Outcome};

/// A machine's store keeps the outcome of a node. Where there is no memory, nothing changes.
pub(crate) fn put_in(
    stores: &mut Vec<Store>,
    machine: u32,
    node: u64,
    outcome: Outcome,
) -> Result<(), NoMemory>
    requires { machine < length stores.old.items }
    ensures ok { OnOk result (stores.new.items ≡ set stores.old.items machine
        (map.insert (get_or stores.old.items machine map.empty) node outcome)) }
    ensures same { OnErr result (stores.new.items ≡ stores.old.items) }
{
    match stores[machine as usize].put(node, outcome) {
        Ok(()) => Ok(()),
        Err((outcome, NoMemory)) => {
            drop(outcome);
            Err(NoMemory)
        }
    }
}

/// A claim that a node had is kept apart if its machine is lost. There is room for it.
pub(crate) fn keep_apart(undone: &mut Vec<Undone>, alive: &[bool], node: u64, before: Option<Held>)
    requires { vec_len undone.old < vec_capacity undone.old }
    ensures { undone.new.items ≡ spec.kept_apart alive.now undone.old.items node before }
{
    let Some(held) = before else {
        return;
    };
    if is_lost(alive, held.machine) {
        undone.push_reserved(Undone { node, held });
    }
}

/// Whether a machine is lost. One past the last lives.
pub fn is_lost(alive: &[bool], machine: u32) -> bool
    ensures { result ≡ spec.is_lost alive.now machine }
{
    match alive.get(machine as usize) {
        Some(alive) => !*alive,
        None => false,
    }
}

/// A machine's store is emptied.
pub(crate) fn clear_store(stores: &mut Vec<Store>, machine: u32)
    requires { machine < length stores.old.items }
    ensures { stores.new.items ≡ set stores.old.items machine map.empty }
{
    stores[machine as usize].clear();
}

/// A machine doesn't live any more.
pub(crate) fn mark_lost(alive: &mut Vec<bool>, machine: u32)
    requires { machine < length alive.old.items }
    ensures { alive.new.items ≡ set alive.old.items machine false }
{
    alive[machine as usize] = false;
}

/// The outcome of a node in the store of a machine.
#[tactic(auto, using(crate::proofs::Storing::past_store))]
pub(crate) fn fetch_from(stores: &[Store], machine: u32, node: u64) -> Option<&Outcome>
    ensures { option_copied result ≡ spec.outcome_in stores.now machine node }
{
    match stores.get(machine as usize) {
        Some(store) => store.fetch(node),
        None => None,
    }
}
