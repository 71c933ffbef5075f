//! Settling the head: its lines go out first.
ghost use Rattle.std.specs.Prelude.{◌≡◌, OnOk, IfErr};
ghost use Rattle.pyd_board.specs.declared.event.Act.TheVariants as act;
ghost use Rattle.pyd_runs.specs.Enabled.{CanSettle, IsQuiet};
ghost use Rattle.pyd_core.specs.Cores.{HasRoom, IsCore, state_of};
ghost use Rattle.pyd_steps.specs.Sinks.{told_by};
ghost use Rattle.pyd_here.specs.Going.{IsCutBy, MakesOut};

use crate::seats::own_seat;
use pyd_board::Halt;
use pyd_core::Core;
use pyd_source::Sink;
use pyd_steps::prepare;
use pyd_value::NoMemory;

/// The lines of the head go out, and it is settled, for which there is room.
pub(crate) fn settle<K: Sink>(core: &mut Core, sink: &mut K, node: u64) -> Result<(), Halt>
    requires core { IsCore core.old }
    requires quiet { IsQuiet (state_of core.old) }
    requires room { HasRoom 1 core.old }
    requires can { CanSettle (state_of core.old) node }
    ensures ok { OnOk result (MakesOut core.old core.new (act.Settle node)
        (told_by (K.held sink.old) (K.room sink.old) (K.sure sink.old) (K.faults sink.old))
        (told_by (K.held sink.new) (K.room sink.new) (K.sure sink.new) (K.faults sink.new))) }
    ensures cut { IfErr result (IsCutBy core.old
        (told_by (K.held sink.old) (K.room sink.old) (K.sure sink.old) (K.faults sink.old))
        (told_by (K.held sink.new) (K.room sink.new) (K.sure sink.new) (K.faults sink.new))) }
    ensures same { IfErr result (λ _. core.new ≡ core.old) }
{
    let seat = own_seat(core);
    match prepare(core) {
        Ok(Some(prepared)) => match pyd_steps::settle(core, sink, seat, prepared) {
            Ok(()) => Ok(()),
            Err(_) => Err(Halt::SinkFault),
        },
        // The head may be settled.
        Ok(None) => Err(Halt::NoMemory),
        Err(NoMemory) => Err(Halt::NoMemory),
    }
}
