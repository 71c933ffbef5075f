//! One event of a run on one thread.
ghost use Rattle.std.specs.Prelude.{◌≡◌, ◌∷◌, [], IfErr, OnOk};
ghost use Rattle.pyd_runs.specs.Enabled.{CanAct, IsQuiet};
ghost use Rattle.pyd_core.specs.Cores.{HasRoom, plan_of, state_of};
ghost use Rattle.pyd_core.specs.Steps.{Stays};
ghost use Rattle.pyd_steps.specs.Sinks.{told_by};
ghost use Rattle.pyd_here.specs.Asked.{seat_for};
ghost use Rattle.pyd_here.specs.Going.{IsCutBy, IsHere, MakesOut, basis_by};

use crate::acting::{place, refine, trim};
use crate::claiming::claim;
use crate::finishing::{finish, let_go};
use crate::settling::settle;
use pyd_board::{Act, Halt, Runner};
use pyd_core::Core;
use pyd_ir::{Done, Job};
use pyd_runs::{hold_law, output_law, place_test_law, run_law, step_law, take_law};
use pyd_source::Sink;

/// What may come is done, for which there is room.
pub(crate) fn make<K: Sink, R: Runner<Job = Job, Done = Done>>(
    core: &mut Core,
    sink: &mut K,
    jobs: &mut Vec<Job>,
    runner: &R,
    act: Act,
) -> Result<(), Halt>
    requires here { IsHere core.old jobs.old.items }
    requires quiet { IsQuiet (state_of core.old) }
    requires room { HasRoom 1 core.old }
    requires may { CanAct (plan_of core.old) (state_of core.old)
        (seat_for (plan_of core.old) (state_of core.old) act) act }
    requires bases { R.bases runner.now ≡ basis_by (plan_of core.old) ∷ [] }
    ensures ok { OnOk result (MakesOut core.old core.new act
        (told_by (K.held sink.old) (K.room sink.old) (K.sure sink.old) (K.faults sink.old))
        (told_by (K.held sink.new) (K.room sink.new) (K.sure sink.new) (K.faults sink.new))) }
    ensures here { OnOk result (IsHere core.new jobs.new.items) }
    ensures stays { IfErr result (λ _. Stays core.old core.new) }
    ensures cut { IfErr result (IsCutBy core.new
        (told_by (K.held sink.old) (K.room sink.old) (K.sure sink.old) (K.faults sink.old))
        (told_by (K.held sink.new) (K.room sink.new) (K.sure sink.new) (K.faults sink.new))) }
{
    hold_law();
    output_law();
    place_test_law();
    run_law();
    step_law();
    take_law();
    match act {
        Act::Place(node, _, machine) => {
            place(core, node, machine);
            Ok(())
        }
        Act::Claim(node, attempt, machine) => match claim(core, jobs, node, attempt, machine) {
            Ok(()) => Ok(()),
            Err(_) => Err(Halt::NoMemory),
        },
        Act::Finish(node, attempt, machine) => {
            match finish(core, jobs, runner, node, attempt, machine) {
                Ok(()) => Ok(()),
                Err(_) => Err(Halt::NoMemory),
            }
        }
        Act::Drop(node, attempt, machine) => {
            let_go(core, jobs, node, attempt, machine);
            Ok(())
        }
        Act::Refine(node) => match refine(core, node) {
            Ok(()) => Ok(()),
            Err(_) => Err(Halt::NoMemory),
        },
        Act::Settle(node) => settle(core, sink, node),
        // No loss is due.
        Act::Lose(_) => Err(Halt::NoMemory),
        Act::Trim(node) => {
            trim(core, node);
            Ok(())
        }
    }
}
