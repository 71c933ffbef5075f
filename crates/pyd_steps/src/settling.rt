//! Settling the head: its lines go out, and past nodes that nobody reaches any more are trimmed.
ghost use Rattle.std.specs.Prelude.{◌≡◌, ◌++◌, ◌∷◌, [], suc, length, None, All, IfOk, MatchOption, OnErr, OnOk};
ghost use Rattle.pyd_meaning.specs.Module.{bytes_of};
ghost use Rattle.pyd_runs.specs.Effects.{settled};
ghost use Rattle.pyd_runs.specs.Enabled.{IsLoss, IsQuiet};
ghost use Rattle.pyd_runs.specs.Plans.{IsSeat};
ghost use Rattle.pyd_core.specs.Cores.{HasRoom, IsCore, plan_of, state_of};
ghost use Rattle.pyd_core.specs.Settling.{IsSettling, NoneSettles};
ghost use Rattle.pyd_core.specs.Steps.{Stays, UsesRoom};
ghost use Rattle.pyd_steps.specs.declared.settling.Headed.TheVariants.{Waits};
ghost use Rattle.pyd_steps.specs.Settling.{FailsOut, HasUnreached, HeadMoves, IsPrepared, SettlesOut, TrimsUnreached};
ghost use Rattle.pyd_steps.specs.Sinks.{told_by};

use pyd_core::{Core, Leaves, Settling, behind_head_law, unreached_law};
use pyd_desk::is_pure;
use pyd_runs::{beginning_law, journal_law, prefix_law, reach_law, run_law, step_law};
use pyd_source::{Short, Sink, put_all};
use pyd_value::{List, NoMemory, Text};
use std::alloc::Global;

/// What became of the head.
#[derive(Clone, Copy, Debug, PartialEq, Eq)]
pub enum Headed {
    Settled,
    /// It may not be settled.
    Waits,
    SinkFault,
}

/// What settles the head, and the bytes of its lines.
#[derive(Drop)]
pub struct Prepared {
    pub settling: Settling,
    pub bytes: Vec<u8>,
}

/// What settles the head; none where no node may be settled.
pub fn prepare(core: &Core) -> Result<Option<Prepared>, NoMemory>
    requires core { IsCore core.now }
    requires goes_on { (state_of core.now).graph.end ≡ None }
    ensures { IfOk result (λ found. MatchOption found (NoneSettles (state_of core.now))
        (IsPrepared (plan_of core.now) (state_of core.now))) }
{
    let Some(settling) = core.prepare()? else {
        return Ok(None);
    };
    match line_bytes(core.alloc, settling.lines.as_slice()) {
        Ok(bytes) => Ok(Some(Prepared { settling, bytes })),
        Err(NoMemory) => {
            drop(settling);
            Err(NoMemory)
        }
    }
}

/// The lines of the head go out, and a seat settles it, for which there is an entry's room. Where
/// the sink fails the core is as it was. Takes no memory.
pub fn settle<K: Sink>(
    core: &mut Core,
    sink: &mut K,
    seat: u32,
    prepared: Prepared,
) -> Result<(), Short>
    requires core { IsCore core.old }
    requires quiet { IsQuiet (state_of core.old) }
    requires seat { IsSeat (plan_of core.old) seat }
    requires room { HasRoom 1 core.old }
    requires prepared { IsPrepared (plan_of core.old) (state_of core.old) prepared }
    ensures ok { OnOk result (SettlesOut core.old core.new seat
        (told_by (K.held sink.old) (K.room sink.old) (K.sure sink.old) (K.faults sink.old))
        (told_by (K.held sink.new) (K.room sink.new) (K.sure sink.new) (K.faults sink.new))) }
    ensures room { OnOk result (UsesRoom core.old core.new) }
    ensures same { OnErr result (core.new ≡ core.old) }
    ensures err { OnErr result (FailsOut core.old
        (told_by (K.held sink.old) (K.room sink.old) (K.sure sink.old) (K.faults sink.old))
        (told_by (K.held sink.new) (K.room sink.new) (K.sure sink.new) (K.faults sink.new))) }
{
    let Prepared { settling, bytes } = prepared;
    match put_all(sink, &bytes) {
        Ok(()) => {
            core.settle(seat, settling);
            Ok(())
        }
        Err(short) => {
            drop(settling);
            Err(short)
        }
    }
}

/// A seat settles the head, and then trims each past node that no node of the chain reaches, in
/// list order, unless the run has ended; losses that come due between two events are appended there.
pub fn settle_and_trim<K: Sink>(
    core: &mut Core,
    sink: &mut K,
    seat: u32,
) -> Result<Headed, NoMemory>
    requires core { IsCore core.old }
    requires quiet { IsQuiet (state_of core.old) }
    requires seat { IsSeat (plan_of core.old) seat }
    ensures moves { IfOk result (HeadMoves core.old core.new seat
        (told_by (K.held sink.old) (K.room sink.old) (K.sure sink.old) (K.faults sink.old))
        (told_by (K.held sink.new) (K.room sink.new) (K.sure sink.new) (K.faults sink.new))) }
    ensures memory { OnErr result (Stays core.old core.new) }
    ensures same { OnErr result (sink.new ≡ sink.old) }
    ensures waits { IfOk result (λ headed. headed ≡ Waits → sink.new ≡ sink.old) }
{
    beginning_law();
    journal_law();
    step_law();
    prefix_law();
    let Some(prepared) = prepare(core)? else {
        return Ok(Headed::Waits);
    };
    let nodes = match make_ready(core, &prepared.settling) {
        Ok(nodes) => nodes,
        Err(NoMemory) => {
            drop(prepared);
            return Err(NoMemory);
        }
    };
    match settle(core, sink, seat, prepared) {
        Ok(()) => {
            trim_unreached(core, seat, nodes.as_slice());
            Ok(Headed::Settled)
        }
        Err(_) => Ok(Headed::SinkFault),
    }
}

/// The past nodes that no node of the chain reaches once the head has left this, and room for its
/// Settle and their Trims. Only room changes.
fn make_ready(core: &mut Core, settling: &Settling) -> Result<List<u64>, NoMemory>
    requires core { IsCore core.old }
    requires goes_on { (state_of core.old).graph.end ≡ None }
    requires is { IsSettling (plan_of core.old) (state_of core.old) settling.now }
    ensures unreached { IfOk result (λ nodes.
        HasUnreached (settled (plan_of core.old) (state_of core.old).graph) nodes) }
    ensures room { IfOk result (λ nodes. HasRoom (suc (length nodes)) core.new) }
    ensures stays { Stays core.old core.new }
{
    let nodes = unreached(core, settling)?;
    core.make_room(nodes.len() + 1)?;
    Ok(nodes)
}

/// The past nodes that no node of the chain reaches once the head has left this.
fn unreached(core: &Core, settling: &Settling) -> Result<List<u64>, NoMemory>
    requires core { IsCore core.now }
    requires goes_on { (state_of core.now).graph.end ≡ None }
    requires is { IsSettling (plan_of core.now) (state_of core.now) settling.now }
    ensures { IfOk result
        (HasUnreached (settled (plan_of core.now) (state_of core.now).graph)) }
{
    run_law();
    behind_head_law();
    match &settling.leaves {
        Leaves::Passed(_) => {
            core.unreached_behind_head(core.alloc, is_pure(&core.line.head().work))
        }
        Leaves::Ended(_) => Ok(List::new(core.alloc)),
    }
}

/// A seat trims the past nodes that no node of the chain reaches, unless the run has ended. Takes no
/// memory.
fn trim_unreached(core: &mut Core, seat: u32, nodes: &[u64])
    requires core { IsCore core.old }
    requires seat { IsSeat (plan_of core.old) seat }
    requires driver { All (λ e. IsLoss e.act) core.old.log.journal.items → seat ≡ 0 }
    requires unreached { HasUnreached (state_of core.old).graph nodes.now }
    requires room { HasRoom (length nodes.now) core.old }
    ensures { TrimsUnreached core.old core.new seat }
{
    beginning_law();
    reach_law();
    run_law();
    unreached_law();
    if core.has_ended() {
        return;
    }
    core.trim_all(seat, nodes);
}

/// The bytes of lines, each with a newline.
fn line_bytes(alloc: Global, lines: &[Text]) -> Result<Vec<u8>, NoMemory>
    ensures { IfOk result (λ bytes. bytes.items ≡ bytes_of lines.now) }
{
    let mut bytes = Vec::new(alloc);
    for line in lines {
        append_line(line, &mut bytes)?;
    }
    Ok(bytes)
}

/// The bytes of a line and a newline, behind others.
fn append_line(line: &Text, bytes: &mut Vec<u8>) -> Result<(), NoMemory>
    ensures { OnOk result (bytes.new.items ≡ bytes.old.items ++ bytes_of (line.now ∷ [])) }
{
    bytes.extend_from_slice(line.as_str().as_bytes())?;
    bytes.push(b'\n')?;
    Ok(())
}
