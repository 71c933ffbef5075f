//! What placers are asked and told.
ghost use Rattle.std.specs.Prelude.{◌≡◌, ◌≤◌, ◌∷◌, [], ◌^◌, Contains, length, true, option_map};
ghost use Rattle.pyd_board.specs.declared.placer.Asked.TheVariants.{Ended, Lost};
ghost use Rattle.pyd_board.specs.Placing as placing;
ghost use Rattle.pyd_runs.specs.Enabled.{Lives};
ghost use Rattle.pyd_core.specs.Cores.{IsCore, plan_of, state_of};
ghost use Rattle.pyd_steps.specs.Machines.{home_of};
ghost use Rattle.pyd_steps.specs.Placers.{AddsOr, Answers, Chooses, IsAnswered, Tells, TellsOf};

use crate::machines::{callee, home};
use pyd_board::{Act, Event, Placer, placed_on};
use pyd_core::Core;
use pyd_desk::find;
use pyd_runs::run_law;

/// The machine on which a node is placed: the one that the placer answers, or the least live one
/// where that doesn't live; without a placer the one that the node's number names, or the next live
/// one in circular order.
pub fn choose(placer: &mut Option<Box<dyn Placer + Send>>, core: &Core, node: u64) -> u32
    requires core { IsCore core.now }
    ensures lives { Lives (plan_of core.now) (state_of core.now).lost result }
    ensures asks { Chooses (plan_of core.now) (state_of core.now) node result
        (option_map (λ b. calls b) placer.old) (option_map (λ b. calls b) placer.new) }
{
    run_law();
    let func = callee(find(core.line.nodes.as_slice(), node));
    chosen(placer, node, func, core.desk.alive.as_slice())
}

/// The machine that is chosen for a node that calls a routine. Entry m of `alive` says whether
/// machine m lives.
fn chosen(placer: &mut Option<Box<dyn Placer + Send>>, node: u64, func: u32, alive: &[bool]) -> u32
    requires some { Contains alive.now true }
    requires few { length alive.now ≤ 2 ^ 32 }
    ensures lives { placing.lives alive.now result ≡ true }
    ensures asks { AddsOr (result ≡ home_of alive.now node) (IsAnswered alive.now node func result)
        (option_map (λ b. calls b) placer.old) (option_map (λ b. calls b) placer.new) }
{
    match ask(placer, node, func, alive) {
        Some(answer) => placed_on(alive, answer),
        None => home(alive, node),
    }
}

/// What the placer, if there is one, answers for a node that calls a routine.
fn ask(
    placer: &mut Option<Box<dyn Placer + Send>>,
    node: u64,
    func: u32,
    alive: &[bool],
) -> Option<u32>
    requires { Contains alive.now true }
    ensures { Answers node func result
        (option_map (λ b. calls b) placer.old) (option_map (λ b. calls b) placer.new) }
{
    match placer {
        Some(placer) => Some(placer.place(node, func, alive)),
        None => None,
    }
}

/// Tells the placer, if there is one, of each Finish and each Lose of some entries, in order.
pub fn tell(placer: &mut Option<Box<dyn Placer + Send>>, entries: &[Event])
    ensures { Tells entries.now
        (option_map (λ b. calls b) placer.old) (option_map (λ b. calls b) placer.new) }
{
    for entry in entries {
        tell_one(placer, entry.act);
    }
}

/// Tells the placer, if there is one, of an act.
fn tell_one(placer: &mut Option<Box<dyn Placer + Send>>, act: Act)
    ensures { TellsOf act
        (option_map (λ b. calls b) placer.old) (option_map (λ b. calls b) placer.new) }
{
    match act {
        Act::Finish(node, _, machine) => tell_ended(placer, node, machine),
        Act::Lose(machine) => tell_lost(placer, machine),
        Act::Place(..)
        | Act::Claim(..)
        | Act::Drop(..)
        | Act::Refine(_)
        | Act::Settle(_)
        | Act::Trim(_) => {}
    }
}

/// Tells the placer, if there is one, that a node's outcome came from a machine.
fn tell_ended(placer: &mut Option<Box<dyn Placer + Send>>, node: u64, machine: u32)
    ensures { AddsOr (Unit {0}) (λ made. made ≡ Ended node machine ∷ [])
        (option_map (λ b. calls b) placer.old) (option_map (λ b. calls b) placer.new) }
{
    match placer {
        Some(placer) => placer.ended(node, machine),
        None => {}
    }
}

/// Tells the placer, if there is one, that a machine is lost.
fn tell_lost(placer: &mut Option<Box<dyn Placer + Send>>, machine: u32)
    ensures { AddsOr (Unit {0}) (λ made. made ≡ Lost machine ∷ [])
        (option_map (λ b. calls b) placer.old) (option_map (λ b. calls b) placer.new) }
{
    match placer {
        Some(placer) => placer.lost(machine),
        None => {}
    }
}
