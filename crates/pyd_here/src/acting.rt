//! Events that neither take jobs nor put lines out, by the first seat of the least machine that
//! lives. There is room for the entry.
ghost use Rattle.std.specs.Prelude.{◌≡◌, Some, OnErr, OnOk, true};
ghost use Rattle.std.specs.List.{slice_get};
ghost use Rattle.pyd_board.specs.declared.event.Act.TheVariants as act;
ghost use Rattle.pyd_runs.specs.Deciding.{may_place};
ghost use Rattle.pyd_runs.specs.Enabled.{CanRefine, CanTrim, IsQuiet, Lives};
ghost use Rattle.pyd_runs.specs.Records.{node_at};
ghost use Rattle.pyd_core.specs.Cores.{HasRoom, IsCore, plan_of, state_of};
ghost use Rattle.pyd_core.specs.Placing.{next_attempt_of};
ghost use Rattle.pyd_core.specs.Steps.{Stays};
ghost use Rattle.pyd_here.specs.Going.{MakesHere};

use crate::seats::own_seat;
use pyd_core::Core;
use pyd_ir::Node;
use pyd_runs::run_law;
use pyd_value::NoMemory;

/// Places a node that may be placed on a machine. Takes no memory.
pub(crate) fn place(core: &mut Core, node: u64, machine: u32)
    requires core { IsCore core.old }
    requires quiet { IsQuiet (state_of core.old) }
    requires room { HasRoom 1 core.old }
    requires may { may_place (state_of core.old) node ≡ true }
    requires lives { Lives (plan_of core.old) (state_of core.old).lost machine }
    ensures { MakesHere core.old core.new
        (act.Place node (next_attempt_of core.old node) machine) }
{
    let seat = own_seat(core);
    let _ = core.place(seat, node, machine);
}

/// Trims a past node that the chain doesn't reach. Takes no memory.
pub(crate) fn trim(core: &mut Core, node: u64)
    requires core { IsCore core.old }
    requires quiet { IsQuiet (state_of core.old) }
    requires room { HasRoom 1 core.old }
    requires may { CanTrim (state_of core.old) node }
    ensures { MakesHere core.old core.new (act.Trim node) }
{
    let seat = own_seat(core);
    core.trim(seat, node);
}

/// Refines a composite of the chain.
pub(crate) fn refine(core: &mut Core, node: u64) -> Result<(), NoMemory>
    requires core { IsCore core.old }
    requires quiet { IsQuiet (state_of core.old) }
    requires may { CanRefine (plan_of core.old) (state_of core.old) node }
    ensures ok { OnOk result (MakesHere core.old core.new (act.Refine node)) }
    ensures memory { OnErr result (Stays core.old core.new) }
{
    run_law();
    let seat = own_seat(core);
    let at = place_of(core.line.chain(), node);
    core.refine(seat, at)
}

/// The place of the first node of a number.
fn place_of(nodes: &[Node], number: u64) -> usize
    ensures { slice_get nodes.now result ≡ node_at nodes.now number }
{
    for (at, node) in nodes.iter().enumerate() {
        if node.id == number {
            return at;
        }
    }
    nodes.len()
}
