//! Steps: the first of three things that may be done, behind the losses that are due.
ghost use Rattle.std.specs.Prelude.{◌≡◌, IfOk, OnErr, option_map};
ghost use Rattle.pyd_boards.specs.Boards.{IsSeatIn};
ghost use Rattle.pyd_runs.specs.Enabled.{IsQuiet, IsUnbarred};
ghost use Rattle.pyd_core.specs.Cores.{IsCore, state_of};
ghost use Rattle.pyd_core.specs.Settling.{NoneSettles};
ghost use Rattle.pyd_core.specs.Steps.{ComesBy, Stays};
ghost use Rattle.pyd_steps.specs.Losses.{MayLose, losses_first};
ghost use Rattle.pyd_steps.specs.Placers.{AsksBetween};
ghost use Rattle.pyd_steps.specs.Sinks.{told_by};
ghost use Rattle.pyd_steps.specs.Stepping.{DoesFirst, DoesNext, GoesOn, Steps};

use crate::placers::tell;
use crate::placing::place_all;
use crate::refining::refine_first;
use crate::settling::{Headed, settle_and_trim};
use pyd_board::{Placer, Who};
use pyd_boards::Moved;
use pyd_core::Core;
use pyd_runs::{beginning_law, output_law, place_test_law, run_law};
use pyd_source::Sink;
use pyd_value::NoMemory;

/// The losses that are due come, and then a seat does the first of three things that may be done: it
/// settles the head and trims, refines the first composite, or places nodes. Where there is no
/// memory, the losses alone.
pub fn step<K: Sink>(
    core: &mut Core,
    sink: &mut K,
    placer: &mut Option<Box<dyn Placer + Send>>,
    halted: bool,
    who: Who,
) -> Result<Moved, NoMemory>
    requires core { IsCore core.old }
    requires who { IsSeatIn core.old.setup who }
    requires losses { MayLose core.old who.seat }
    ensures steps { IfOk result (Steps halted core.old core.new who
        (told_by (K.held sink.old) (K.room sink.old) (K.sure sink.old) (K.faults sink.old))
        (told_by (K.held sink.new) (K.room sink.new) (K.sure sink.new) (K.faults sink.new))) }
    ensures memory { OnErr result (ComesBy core.old core.new (losses_first who.seat core.old)) }
    ensures same { OnErr result (sink.new ≡ sink.old) }
    ensures asks { AsksBetween core.old core.new
        (option_map (λ b. calls b) placer.old) (option_map (λ b. calls b) placer.new) }
{
    beginning_law();
    let before = core.log.journal.len();
    core.lose_due(who.seat);
    tell(placer, &core.log.journal[before..]);
    go_on(core, sink, placer, halted, who)
}

/// A seat does the first of the three things that may be done, where no loss is due, unless the run
/// is over or the seat's machine lost.
fn go_on<K: Sink>(
    core: &mut Core,
    sink: &mut K,
    placer: &mut Option<Box<dyn Placer + Send>>,
    halted: bool,
    who: Who,
) -> Result<Moved, NoMemory>
    requires core { IsCore core.old }
    requires who { IsSeatIn core.old.setup who }
    requires unbarred { IsUnbarred (state_of core.old) }
    ensures goes_on { IfOk result (GoesOn halted core.old core.new who
        (told_by (K.held sink.old) (K.room sink.old) (K.sure sink.old) (K.faults sink.old))
        (told_by (K.held sink.new) (K.room sink.new) (K.sure sink.new) (K.faults sink.new))) }
    ensures memory { OnErr result (Stays core.old core.new) }
    ensures same { OnErr result (sink.new ≡ sink.old) }
    ensures asks { AsksBetween core.old core.new
        (option_map (λ b. calls b) placer.old) (option_map (λ b. calls b) placer.new) }
{
    if core.has_ended() || halted {
        return Ok(Moved::Over);
    }
    if core.is_lost(who.machine) {
        return Ok(Moved::Lost);
    }
    do_first(core, sink, placer, who)
}

/// A seat does the first of the three things that may be done, while a run goes on.
fn do_first<K: Sink>(
    core: &mut Core,
    sink: &mut K,
    placer: &mut Option<Box<dyn Placer + Send>>,
    who: Who,
) -> Result<Moved, NoMemory>
    requires core { IsCore core.old }
    requires who { IsSeatIn core.old.setup who }
    requires quiet { IsQuiet (state_of core.old) }
    ensures does { IfOk result (DoesFirst core.old core.new who
        (told_by (K.held sink.old) (K.room sink.old) (K.sure sink.old) (K.faults sink.old))
        (told_by (K.held sink.new) (K.room sink.new) (K.sure sink.new) (K.faults sink.new))) }
    ensures memory { OnErr result (Stays core.old core.new) }
    ensures same { OnErr result (sink.new ≡ sink.old) }
    ensures asks { AsksBetween core.old core.new
        (option_map (λ b. calls b) placer.old) (option_map (λ b. calls b) placer.new) }
{
    beginning_law();
    let before = core.log.journal.len();
    match settle_and_trim(core, sink, who.seat)? {
        Headed::Settled => {
            tell(placer, &core.log.journal[before..]);
            Ok(Moved::Did(Vec::new(core.alloc)))
        }
        Headed::SinkFault => Ok(Moved::SinkFault),
        Headed::Waits => refine_or_place(core, placer, who),
    }
}

/// A seat refines the first composite, or else places nodes, where no node may be settled.
fn refine_or_place(
    core: &mut Core,
    placer: &mut Option<Box<dyn Placer + Send>>,
    who: Who,
) -> Result<Moved, NoMemory>
    requires core { IsCore core.old }
    requires who { IsSeatIn core.old.setup who }
    requires quiet { IsQuiet (state_of core.old) }
    requires no_settle { NoneSettles (state_of core.old) }
    ensures does { IfOk result (DoesNext core.old core.new who) }
    ensures memory { OnErr result (Stays core.old core.new) }
    ensures asks { AsksBetween core.old core.new
        (option_map (λ b. calls b) placer.old) (option_map (λ b. calls b) placer.new) }
{
    beginning_law();
    run_law();
    output_law();
    place_test_law();
    if refine_first(core, who.seat)? {
        return Ok(Moved::Did(Vec::new(core.alloc)));
    }
    match place_all(core, placer, who.seat)? {
        Some(tickets) => Ok(Moved::Did(tickets)),
        None => Ok(Moved::Nothing),
    }
}
