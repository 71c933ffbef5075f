//! Claims, whose jobs are kept.
ghost use Rattle.std.specs.Prelude.{OnErr, OnOk};
ghost use Rattle.pyd_board.specs.declared.event.Act.TheVariants as act;
ghost use Rattle.pyd_runs.specs.Enabled.{CanClaim, IsQuiet};
ghost use Rattle.pyd_runs.specs.Plans as runs;
ghost use Rattle.pyd_core.specs.Cores.{plan_of, state_of};
ghost use Rattle.pyd_core.specs.Steps.{Stays};
ghost use Rattle.pyd_here.specs.Going.{IsHere, MakesHere};

use crate::seats::first_seat;
use pyd_core::Core;
use pyd_ir::Job;
use pyd_runs::{claimed_law, hold_law, run_law, step_law, take_law};
use pyd_value::NoMemory;

/// The first seat of a machine claims an attempt of a node, and its job is kept.
pub(crate) fn claim(
    core: &mut Core,
    jobs: &mut Vec<Job>,
    node: u64,
    attempt: u64,
    machine: u32,
) -> Result<(), NoMemory>
    requires here { IsHere core.old jobs.old.items }
    requires quiet { IsQuiet (state_of core.old) }
    requires can { CanClaim (plan_of core.old) (state_of core.old)
        (runs.first_seat (plan_of core.old) machine) node attempt machine }
    ensures ok { OnOk result (MakesHere core.old core.new (act.Claim node attempt machine)) }
    ensures here { OnOk result (IsHere core.new jobs.new.items) }
    ensures memory { OnErr result (Stays core.old core.new) }
{
    run_law();
    step_law();
    hold_law();
    take_law();
    claimed_law();
    let seat = first_seat(core, machine);
    jobs.reserve(1)?;
    match core.claim(seat, node, attempt, machine)? {
        Some(job) => {
            jobs.push_reserved(job);
            Ok(())
        }
        // The attempt is the node's live ticket.
        None => Err(NoMemory),
    }
}
