//! Jobs that are done, and claims that are let go.
ghost use Rattle.std.specs.Prelude.{◌≡◌, ◌∷◌, [], OnErr, OnOk};
ghost use Rattle.pyd_board.specs.declared.event.Act.TheVariants as act;
ghost use Rattle.pyd_runs.specs.Enabled.{CanDrop, CanFinish, IsQuiet};
ghost use Rattle.pyd_runs.specs.Plans as runs;
ghost use Rattle.pyd_core.specs.Cores.{HasRoom, plan_of, state_of};
ghost use Rattle.pyd_core.specs.Steps.{Stays};
ghost use Rattle.pyd_here.specs.Going.{IsHere, MakesHere, basis_by};

use crate::jobs::take_job;
use crate::seats::first_seat;
use pyd_board::Runner;
use pyd_core::Core;
use pyd_ir::{Done, Job};
use pyd_runs::{
    callee_law, hold_law, let_go_law, release_law, run_law, seat_law, silent_law, step_law,
    take_law,
};
use pyd_value::NoMemory;

/// The job of a claim is done, and its first seat gives what was done.
pub(crate) fn finish<R: Runner<Job = Job, Done = Done>>(
    core: &mut Core,
    jobs: &mut Vec<Job>,
    runner: &R,
    node: u64,
    attempt: u64,
    machine: u32,
) -> Result<(), NoMemory>
    requires here { IsHere core.old jobs.old.items }
    requires quiet { IsQuiet (state_of core.old) }
    requires can { CanFinish (plan_of core.old) (state_of core.old)
        (runs.first_seat (plan_of core.old) machine) node attempt machine }
    requires bases { R.bases runner.now ≡ basis_by (plan_of core.old) ∷ [] }
    ensures ok { OnOk result (MakesHere core.old core.new (act.Finish node attempt machine)) }
    ensures here { OnOk result (IsHere core.new jobs.new.items) }
    ensures memory { OnErr result (Stays core.old core.new) }
{
    run_law();
    step_law();
    hold_law();
    take_law();
    let_go_law();
    callee_law();
    silent_law();
    let seat = first_seat(core, machine);
    let job = take_job(jobs, node, attempt);
    match runner.run(job) {
        Ok(done) => {
            let answer = core.finish(seat, node, attempt, machine, &done);
            drop(done);
            match answer {
                Ok(_) => Ok(()),
                Err(NoMemory) => Err(NoMemory),
            }
        }
        Err((job, NoMemory)) => {
            drop(job);
            Err(NoMemory)
        }
    }
}

/// The first seat of a machine lets go of a claim that is in vain, for which there is room. Takes no
/// memory.
pub(crate) fn let_go(core: &mut Core, jobs: &mut Vec<Job>, node: u64, attempt: u64, machine: u32)
    requires here { IsHere core.old jobs.old.items }
    requires quiet { IsQuiet (state_of core.old) }
    requires can { CanDrop (state_of core.old)
        (runs.first_seat (plan_of core.old) machine) node attempt machine }
    requires room { HasRoom 1 core.old }
    ensures makes { MakesHere core.old core.new (act.Drop node attempt machine) }
    ensures here { IsHere core.new jobs.new.items }
{
    run_law();
    step_law();
    hold_law();
    take_law();
    let_go_law();
    release_law();
    seat_law();
    let seat = first_seat(core, machine);
    drop(take_job(jobs, node, attempt));
    core.let_go(seat, node, attempt, machine);
}
