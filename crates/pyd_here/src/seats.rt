//! The seats that act on one thread, and the machines of nodes.
ghost use Rattle.std.specs.Prelude.{◌≡◌, ◌<◌, ◌≤◌};
ghost use Rattle.pyd_board.specs.Placing as placing;
ghost use Rattle.pyd_runs.specs.Enabled.{Lives};
ghost use Rattle.pyd_runs.specs.Plans as runs;
ghost use Rattle.pyd_runs.specs.Plans.{IsSeat, IsSeatOf};
ghost use Rattle.pyd_core.specs.Cores.{IsCore, plan_of, state_of};
ghost use Rattle.pyd_here.specs.Asked as spec;

use pyd_board::placed_on;
use pyd_core::Core;
use pyd_runs::run_law;

/// The first seat of the least machine that lives.
pub(crate) fn own_seat(core: &Core) -> u32
    requires { IsCore core.now }
    ensures seat { result ≡ runs.first_seat (plan_of core.now)
        (spec.least_of (plan_of core.now) (state_of core.now)) }
    ensures there { IsSeat (plan_of core.now) result }
{
    first_seat(core, least_live(core))
}

/// The first seat of a machine.
pub(crate) fn first_seat(core: &Core, machine: u32) -> u32
    requires core { IsCore core.now }
    requires machine { machine < core.now.setup.machines }
    ensures seat { result ≡ runs.first_seat (plan_of core.now) machine }
    ensures of { IsSeatOf (plan_of core.now) machine result }
    ensures there { IsSeat (plan_of core.now) result }
{
    1 + machine * core.setup.workers
}

/// The least machine that lives.
pub(crate) fn least_live(core: &Core) -> u32
    requires { IsCore core.now }
    ensures least { result ≡ spec.least_of (plan_of core.now) (state_of core.now) }
    ensures lives { Lives (plan_of core.now) (state_of core.now).lost result }
{
    run_law();
    placed_on(core.desk.alive.as_slice(), core.setup.machines)
}
