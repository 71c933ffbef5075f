//! Losses that are due, of which the placer is told.
ghost use Rattle.std.specs.Prelude.{option_map};
ghost use Rattle.pyd_runs.specs.Enabled.{IsUnbarred};
ghost use Rattle.pyd_runs.specs.Plans.{IsSeat};
ghost use Rattle.pyd_core.specs.Cores.{IsCore, plan_of, state_of};
ghost use Rattle.pyd_core.specs.Steps.{ComesBy};
ghost use Rattle.pyd_steps.specs.Losses.{MayLose, losses_first};
ghost use Rattle.pyd_steps.specs.Placers.{AsksBetween};

use crate::placers::tell;
use pyd_board::Placer;
use pyd_core::Core;

/// The losses that are due come, by a seat, and the placer is told of them. Takes no memory.
pub fn lose_due(core: &mut Core, placer: &mut Option<Box<dyn Placer + Send>>, seat: u32)
    requires core { IsCore core.old }
    requires seat { IsSeat (plan_of core.old) seat }
    requires losses { MayLose core.old seat }
    ensures losses { ComesBy core.old core.new (losses_first seat core.old) }
    ensures none_due { IsUnbarred (state_of core.new) }
    ensures asks { AsksBetween core.old core.new
        (option_map (λ b. calls b) placer.old) (option_map (λ b. calls b) placer.new) }
{
    let before = core.log.journal.len();
    core.lose_due(seat);
    tell(placer, &core.log.journal[before..]);
}
