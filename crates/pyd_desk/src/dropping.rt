//! Claims that are let go.
ghost use Rattle.std.specs.Prelude.{◌≡◌, ◌<◌, length, set};
ghost use Rattle.pyd_runs.specs.Effects as runs;
ghost use Rattle.pyd_desk.specs.Desks as spec;
ghost use Rattle.pyd_desk.specs.Desks.{mark_at};
ghost use Rattle.pyd_desk.specs.Dropping.{released};
ghost use Rattle.pyd_desk.specs.States.{Becomes, HasSameMachines};

use crate::desk::{Desk, Held, Mark, Undone};
use crate::stores::is_lost;

impl Desk {
    /// The claims of a node are let go that a loss undid in this attempt, and the one that stands
    /// on this machine. Where there is none, nothing changes. Takes no memory.
    pub fn let_go(&mut self, node: u64, attempt: u64, machine: u32)
        requires { node < length self.old.marks.items }
        ensures becomes { Becomes self.old self.new (λ s. runs.dropped s node attempt machine) }
        ensures machines { HasSameMachines self.old self.new }
    {
        release(
            &mut self.marks,
            self.alive.as_slice(),
            node,
            attempt,
            machine,
        );
        forget_undone(&mut self.undone, node, attempt);
    }
}

/// The node's claim goes, if it goes with the attempt or the machine.
fn release(marks: &mut Vec<Mark>, alive: &[bool], node: u64, attempt: u64, machine: u32)
    requires { node < length marks.old.items }
    ensures { marks.new.items ≡ set marks.old.items node (record (mark_at marks.old.items node) {
      claim = released alive.now attempt machine (mark_at marks.old.items node).claim;
    }) }
{
    let mark = &mut marks[node as usize];
    if goes_with(alive, attempt, machine, &mark.claim) {
        mark.claim = None;
    }
}

/// Whether a claim goes with an attempt, where its machine is lost, and else with a machine.
fn goes_with(alive: &[bool], attempt: u64, machine: u32, claim: &Option<Held>) -> bool
    ensures { result ≡ spec.goes_with alive.now attempt machine claim.now }
{
    let Some(held) = claim else {
        return false;
    };
    if is_lost(alive, held.machine) {
        held.attempt == attempt
    } else {
        held.machine == machine
    }
}

/// The claims that are kept apart of an attempt of a node go.
fn forget_undone(undone: &mut Vec<Undone>, node: u64, attempt: u64)
    ensures { undone.new.items ≡ spec.undone_but node attempt undone.old.items }
{
    undone.retain(|u| !(u.node == node && u.held.attempt == attempt));
}
