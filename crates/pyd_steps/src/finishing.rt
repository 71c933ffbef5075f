//! Outcomes of claims, behind the losses that are due.
ghost use Rattle.std.specs.Prelude.{◌≡◌, IfOk, OnErr, option_map};
ghost use Rattle.pyd_boards.specs.Boards.{IsSeatIn};
ghost use Rattle.pyd_core.specs.Cores.{IsCore, plan_of, state_of};
ghost use Rattle.pyd_core.specs.Finishing.{HoldsClaimWith};
ghost use Rattle.pyd_core.specs.Steps.{ComesBy};
ghost use Rattle.pyd_runs.specs.Plans.{limits_of};
ghost use Rattle.pyd_steps.specs.Finishing.{Finishes};
ghost use Rattle.pyd_steps.specs.Losses.{MayLose, losses_first};
ghost use Rattle.pyd_steps.specs.Placers.{AsksBetween};

use crate::placers::tell;
use pyd_board::{Placer, Who};
use pyd_boards::Finished;
use pyd_core::Core;
use pyd_ir::Done;
use pyd_runs::{beginning_law, event_law, hold_law, run_law};
use pyd_value::NoMemory;

/// The losses that are due come, and then a seat gives what was done of a job that it holds; the
/// placer is told. Where there is no memory, the losses alone.
pub fn finish(
    core: &mut Core,
    placer: &mut Option<Box<dyn Placer + Send>>,
    done: &Done,
    who: Who,
) -> Result<Finished, NoMemory>
    requires core { IsCore core.old }
    requires who { IsSeatIn core.old.setup who }
    requires losses { MayLose core.old who.seat }
    requires holds { HoldsClaimWith (state_of core.old) who.seat done.now.job.node
        done.now.job.attempt who.machine done.now.job }
    requires file { done.now.file.value ≡ core.old.program.file }
    requires limits { done.now.limits ≡ limits_of (plan_of core.old) }
    ensures finishes { IfOk result
        (Finishes core.old core.new done.now.job.node done.now.job.attempt who) }
    ensures memory { OnErr result (ComesBy core.old core.new (losses_first who.seat core.old)) }
    ensures asks { AsksBetween core.old core.new
        (option_map (λ b. calls b) placer.old) (option_map (λ b. calls b) placer.new) }
{
    run_law();
    event_law();
    hold_law();
    beginning_law();
    let before = core.log.journal.len();
    core.lose_due(who.seat);
    let finished = core.finish(who.seat, done.job.node, done.job.attempt, who.machine, done);
    tell(placer, &core.log.journal[before..]);
    finished
}
