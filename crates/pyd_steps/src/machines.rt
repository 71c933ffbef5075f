//! The machine of a node where no placer chooses it, and the routine that a node calls.
ghost use Rattle.std.specs.Prelude.{◌≡◌, ◌<◌, ◌≤◌, ◌^◌, Contains, length, true};
ghost use Rattle.std.specs.Option.{option_copied};
ghost use Rattle.pyd_board.specs.Placing as placing;
ghost use Rattle.pyd_steps.specs.Machines as spec;

use pyd_board::placed_on;
use pyd_ir::{Node, Work};

/// The live machine at a place, or the next one in circular order. Entry m of `alive` says whether
/// machine m lives.
pub fn live_around(alive: &[bool], place: usize) -> u32
    requires { length alive.now ≤ 2 ^ 32 }
    ensures value { result ≡ spec.live_around alive.now place }
    ensures lives { Contains (placing.circle alive.now) true
        → placing.lives alive.now result ≡ true }
{
    placed_on(alive, live_from(alive, place).unwrap_or(0))
}

/// The least live machine at a place or behind it.
fn live_from(alive: &[bool], place: usize) -> Option<u32>
    requires { length alive.now ≤ 2 ^ 32 }
    ensures { result ≡ placing.live_from alive.now place }
{
    for machine in place..alive.len() {
        if alive[machine] {
            return Some(machine as u32);
        }
    }
    None
}

/// The machine that a node's number names, or the next live one in circular order.
pub fn home(alive: &[bool], node: u64) -> u32
    requires some { 0 < length alive.now }
    requires few { length alive.now ≤ 2 ^ 32 }
    ensures value { result ≡ spec.home_of alive.now node }
    ensures lives { Contains (placing.circle alive.now) true
        → placing.lives alive.now result ≡ true }
{
    live_around(alive, node as usize % alive.len())
}

/// The routine that a node calls, 0 where it calls none.
pub(crate) fn callee(node: Option<&Node>) -> u32
    ensures { result ≡ spec.callee_at (option_copied node.entry) }
{
    match node {
        Some(node) => callee_of(&node.work),
        None => 0,
    }
}

/// The routine that a work calls, 0 where it calls none.
fn callee_of(work: &Work) -> u32
    ensures { result ≡ spec.callee_of work.now }
{
    match work {
        Work::Call { func, .. } | Work::Run { func, .. } => *func,
        Work::Op { .. }
        | Work::Read { .. }
        | Work::Stop(_)
        | Work::Print(_)
        | Work::Cond { .. }
        | Work::While { .. }
        | Work::For { .. }
        | Work::Pick { .. }
        | Work::Enter { .. } => 0,
    }
}
