//! Losses that are due, each by the first seat of the least machine that lives then.
ghost use Rattle.std.specs.Prelude.{◌≡◌, ◌<◌, ◌-◌, ℕ, List as Sequence, None, Some, length};
ghost use Rattle.pyd_ir.specs.declared.job.Job.{Job};
ghost use Rattle.pyd_runs.specs.Enabled.{IsUnbarred, due};
ghost use Rattle.pyd_core.specs.Cores.{IsCore, state_of};
ghost use Rattle.pyd_steps.specs.declared.told.Told.{Told};
ghost use Rattle.pyd_here.specs.Going.{GoesOn, HasBegun, IsHere};

use crate::seats::own_seat;
use pyd_core::Core;
use pyd_runs::{
    beginning_law, desk_law, hold_law, journal_law, output_law, run_law, step_law, take_law,
};

/// All losses that are due come, one after another, while the run goes on. Takes no memory.
pub(crate) fn lose_all(core: &mut Core)
    requires core { IsCore core.old }
    requires begun { HasBegun (state_of core.old) }
    ensures here { (jobs : Sequence Job) → IsHere core.old jobs → IsHere core.new jobs }
    ensures none_due { IsUnbarred (state_of core.new) }
    ensures goes { (told : Told) (choices : Sequence ℕ)
        → GoesOn core.old core.new told told choices choices }
{
    beginning_law();
    if core.has_ended() {
        return;
    }
    while let Some(machine) = core.due_machine() {
        lose(core, machine);
    }
}

/// The loss of a machine that is due comes.
fn lose(core: &mut Core, machine: u32)
    requires core { IsCore core.old }
    requires begun { HasBegun (state_of core.old) }
    requires goes_on { (state_of core.old).graph.end ≡ None }
    requires due { due (state_of core.old) ≡ Some machine }
    ensures core { IsCore core.new }
    ensures begun { HasBegun (state_of core.new) }
    ensures here { (jobs : Sequence Job) → IsHere core.old jobs → IsHere core.new jobs }
    ensures goes_on { (state_of core.new).graph.end ≡ None }
    ensures nearer { length core.new.setup.losses - core.new.lost
        < length core.old.setup.losses - core.old.lost }
    ensures goes { (told : Told) (choices : Sequence ℕ)
        → GoesOn core.old core.new told told choices choices }
{
    run_law();
    step_law();
    journal_law();
    desk_law();
    output_law();
    hold_law();
    take_law();
    let seat = own_seat(core);
    core.lose(seat, machine);
}
