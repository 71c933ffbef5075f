//! A run as far as it has come, and the sink of its lines.
ghost use Rattle.std.specs.Prelude.{◌≡◌, ◌≤◌, ◌⊎◌, ℕ, Contains, IfOk, OnErr, Some, None, true, false, length, map, option_map, slice_get};
ghost use Rattle.pyd_board.specs.declared.history.Halt.TheVariants.{SinkFault};
ghost use Rattle.pyd_board.specs.Serving.{Serves, basis_of};
ghost use Rattle.pyd_boards.specs.Boards.{HoldsJob, IsSeatIn};
ghost use Rattle.pyd_boards.specs.Calls as call;
ghost use Rattle.pyd_boards.specs.Moves as moves;
ghost use Rattle.pyd_core.specs.Cores.{IsCore, plan_of};
ghost use Rattle.pyd_core.specs.Facts.{facts_by, may_come_by};
ghost use Rattle.pyd_core.specs.Losing.{losses_by};
ghost use Rattle.pyd_ir.specs.Meaning.{TaskFits};
ghost use Rattle.pyd_runs.specs.Effects.{first_state};
ghost use Rattle.pyd_steps.specs.Placers.{AsksOver};
ghost use Rattle.pyd_steps.specs.Sinks.{told_by};
ghost use Rattle.pyd_cluster.specs.Keeping as spec;

use crate::cluster::{Parts, Pieces};
use crate::known::Known;
use pyd_board::{Event, Halt, Placer, Ticket, Who};
use pyd_boards::{Claimed, Finished, Moved};
use pyd_core::{Core, Log, lawful_law, next_law};
use pyd_ir::{Done, Job};
use pyd_runs::{
    beginning_law, callee_law, journal_law, loss_law, number_law, silent_law, since_law,
};
use pyd_source::Sink;
use pyd_value::{End, NoMemory};
use std::marker::Model;
use std::snapshot::Snapshot;

/// Keeps a run and its sink.
#[derive(Drop)]
pub(crate) struct Keeper<K: Sink + Drop> {
    core: Core,
    sink: K,
    opening: Snapshot<K>,
    fault: bool,
    halt: Option<Halt>,
}

impl<K: Sink + Drop> Model for Keeper<K> {
    ghost use Rattle.pyd_cluster.specs.contracts.known.Known as known;
    ghost use Rattle.pyd_cluster.specs.declared.known.Known.{Known};
    ghost use Rattle.pyd_cluster.specs.Keeping.{IsKept, known_by};
    ghost use Rattle.pyd_core.specs.Cores.{IsCore};
    ghost use Rattle.pyd_steps.specs.Sinks.{told_by};

    ghost Value = { Known };

    ghost coded = { known.the_row.coded };

    ghost view = { λ k. known_by k.core k.fault k.halt
        (told_by (K.held k.opening.value) (K.room k.opening.value) (K.sure k.opening.value)
        (K.faults k.opening.value))
        (told_by (K.held k.sink) (K.room k.sink) (K.sure k.sink) (K.faults k.sink)) };

    ghost invariant = { λ k. IsCore k.core × IsKept k.fault (known_by k.core k.fault k.halt
        (told_by (K.held k.opening.value) (K.room k.opening.value) (K.sure k.opening.value)
        (K.faults k.opening.value))
        (told_by (K.held k.sink) (K.room k.sink) (K.sure k.sink) (K.faults k.sink))) };
}

impl<K: Sink + Drop> Keeper<K> {
    /// A run on which no more than the losses that are due has come, and its sink.
    pub(crate) fn start(core: Core, sink: K) -> Keeper<K>
        requires core { IsCore core }
        requires begins { core.log.journal.items ≡ losses_by 0 (first_state (plan_of core)) }
        ensures { result ≡ spec.known_by core false None
            (told_by (K.held sink) (K.room sink) (K.sure sink) (K.faults sink))
            (told_by (K.held sink) (K.room sink) (K.sure sink) (K.faults sink)) }
    {
        let opening = Snapshot::of(&sink);
        Keeper {
            core,
            sink,
            opening,
            fault: false,
            halt: None,
        }
    }

    /// Claims a ticket for a seat, behind the losses that are due.
    pub(crate) fn claim(
        &mut self,
        placer: &mut Option<Box<dyn Placer + Send>>,
        ticket: Ticket,
        who: Who,
    ) -> Result<Claimed<Job>, NoMemory>
        requires who { IsSeatIn self.old.run.setup who }
        ensures run { self.new.run ≡ self.old.run }
        ensures opening { self.new.opening ≡ self.old.opening }
        ensures sink { self.new.sink ≡ self.old.sink }
        ensures goes_on { call.GoesOnBy (may_come_by (spec.name_of self.old)) who.seat
            self.old.history self.new.history }
        ensures answer { IfOk result (λ answer. call.Claims (facts_by (spec.name_of self.old))
            (may_come_by (spec.name_of self.old)) (spec.name_of self.old) ticket who
            self.old.history answer self.new.history) }
        ensures fits { IfOk result (λ answer. call.IfJob answer (λ job.
            Serves (map basis_of (spec.name_of self.old)) 0 (TaskFits job.task))) }
        ensures over { call.IsConcluded (facts_by (spec.name_of self.old))
            (spec.name_of self.old) self.new.history }
        ensures memory { OnErr result (call.LosesIn (facts_by (spec.name_of self.old))
            (may_come_by (spec.name_of self.old)) 0 self.old.history self.new.history) }
        ensures asks { AsksOver (spec.plan_of self.old) self.old.history.events
            self.new.history.events
            (option_map (λ b. calls b) placer.old) (option_map (λ b. calls b) placer.new) }
    {
        callee_law();
        silent_law();
        beginning_law();
        next_law();
        pyd_steps::claim(&mut self.core, placer, self.halt.is_some(), ticket, who)
    }

    /// Takes what was done of a job that a seat holds, behind the losses that are due.
    pub(crate) fn finish(
        &mut self,
        placer: &mut Option<Box<dyn Placer + Send>>,
        done: &Done,
        who: Who,
    ) -> Result<Finished, NoMemory>
        requires who { IsSeatIn self.old.run.setup who }
        requires held { HoldsJob (facts_by (spec.name_of self.old)) who done.now.job
            self.old.history.events }
        requires basis { slice_get (map basis_of (spec.name_of self.old)) 0
            ≡ Some (record {
              file = done.now.file.value;
              turns = done.now.limits.turns;
              depth = done.now.limits.depth;
            }) }
        ensures run { self.new.run ≡ self.old.run }
        ensures opening { self.new.opening ≡ self.old.opening }
        ensures sink { self.new.sink ≡ self.old.sink }
        ensures goes_on { call.GoesOnBy (may_come_by (spec.name_of self.old)) who.seat
            self.old.history self.new.history }
        ensures answer { (held : HoldsJob (facts_by (spec.name_of self.old)) who done.now.job
            self.old.history.events) → IfOk result (λ answer.
            call.Finishes (facts_by (spec.name_of self.old)) (may_come_by (spec.name_of self.old))
            held.claim who self.old.history answer self.new.history) }
        ensures over { call.IsConcluded (facts_by (spec.name_of self.old))
            (spec.name_of self.old) self.new.history }
        ensures memory { OnErr result (call.LosesIn (facts_by (spec.name_of self.old))
            (may_come_by (spec.name_of self.old)) 0 self.old.history self.new.history) }
        ensures asks { AsksOver (spec.plan_of self.old) self.old.history.events
            self.new.history.events
            (option_map (λ b. calls b) placer.old) (option_map (λ b. calls b) placer.new) }
    {
        beginning_law();
        since_law();
        next_law();
        lawful_law();
        pyd_steps::finish(&mut self.core, placer, done, who)
    }

    /// Does the first of three things that may be done, behind the losses that are due. A fault of the
    /// sink is kept, and halts.
    pub(crate) fn step(
        &mut self,
        placer: &mut Option<Box<dyn Placer + Send>>,
        who: Who,
    ) -> Result<Moved, NoMemory>
        requires who { IsSeatIn self.old.run.setup who }
        ensures run { self.new.run ≡ self.old.run }
        ensures opening { self.new.opening ≡ self.old.opening }
        ensures goes_on { call.GoesOnBy (may_come_by (spec.name_of self.old)) who.seat
            self.old.history self.new.history }
        ensures answer { IfOk result (λ answer. moves.Steps (facts_by (spec.name_of self.old))
            (may_come_by (spec.name_of self.old)) true (spec.name_of self.old) who
            self.old.history answer self.new.history) }
        ensures numbered { IfOk result (λ answer. moves.AreNumbered (moves.moved_tickets answer)) }
        ensures over { call.IsConcluded (facts_by (spec.name_of self.old))
            (spec.name_of self.old) self.new.history }
        ensures memory { OnErr result (moves.LosesFirst (facts_by (spec.name_of self.old))
            (may_come_by (spec.name_of self.old)) true self.old.history self.new.history) }
        ensures same { OnErr result (self.new.sink ≡ self.old.sink) }
        ensures asks { AsksOver (spec.plan_of self.old) self.old.history.events
            self.new.history.events
            (option_map (λ b. calls b) placer.old) (option_map (λ b. calls b) placer.new) }
    {
        beginning_law();
        journal_law();
        number_law();
        next_law();
        let halted = self.halt.is_some();
        let _ = self.core.next_number();
        let moved = pyd_steps::step(&mut self.core, &mut self.sink, placer, halted, who)?;
        self.fault = fault_behind(&moved, self.fault);
        self.halt = halt_behind(&moved, self.halt);
        Ok(moved)
    }

    /// A seat appends the losses that are due.
    pub(crate) fn lose_due(&mut self, placer: &mut Option<Box<dyn Placer + Send>>, who: Who)
        requires who { IsSeatIn self.old.run.setup who ⊎ (who.seat ≡ 0) }
        ensures run { self.new.run ≡ self.old.run }
        ensures opening { self.new.opening ≡ self.old.opening }
        ensures sink { self.new.sink ≡ self.old.sink }
        ensures goes_on { call.GoesOnBy (may_come_by (spec.name_of self.old)) who.seat
            self.old.history self.new.history }
        ensures losses { moves.LosesAll (facts_by (spec.name_of self.old))
            (may_come_by (spec.name_of self.old)) self.old.history self.new.history }
        ensures over { call.IsConcluded (facts_by (spec.name_of self.old))
            (spec.name_of self.old) self.new.history }
        ensures asks { AsksOver (spec.plan_of self.old) self.old.history.events
            self.new.history.events
            (option_map (λ b. calls b) placer.old) (option_map (λ b. calls b) placer.new) }
    {
        beginning_law();
        next_law();
        pyd_steps::lose_due(&mut self.core, placer, who.seat);
    }

    /// Halts; the first cause stays.
    pub(crate) fn stop(&mut self, why: Halt)
        requires cause { why ≡ SinkFault
            → ((run : ℕ) × Contains self.old.history.sink_faults run) }
        ensures run { self.new.run ≡ self.old.run }
        ensures opening { self.new.opening ≡ self.old.opening }
        ensures sink { self.new.sink ≡ self.old.sink }
        ensures halted { self.new.history ≡ record self.old.history {
          halted = Some (call.halted_by self.old.history.halted why);
        } }
    {
        if self.halt.is_none() {
            self.halt = Some(why);
        }
    }

    /// How the run has ended, if it has.
    pub(crate) fn ended(&self) -> Option<End>
        ensures { result ≡ (facts_by (spec.name_of self.now)).end self.now.history }
    {
        self.core.end()
    }

    /// How many events there are.
    pub(crate) fn events(&self) -> u64
        ensures value { result ≡ length self.now.history.events }
        ensures within { call.IsWithin self.now.history }
    {
        loss_law();
        self.core.log.journal.len() as u64
    }

    /// Whether a machine is lost.
    pub(crate) fn lost(&self, machine: u32) -> bool
        ensures { result ≡ (facts_by (spec.name_of self.now)).has_lost
            self.now.history.events 0 machine }
    {
        self.core.is_lost(machine)
    }

    /// The run and the sink, apart.
    pub(crate) fn into_pieces(self) -> Pieces<K>
        ensures core { IsCore result.core }
        ensures known { spec.known_by result.core result.fault result.halt self.opening
            (told_by (K.held result.sink) (K.room result.sink) (K.sure result.sink)
            (K.faults result.sink)) ≡ self }
        ensures kept { spec.IsKept result.fault self }
    {
        let Keeper {
            core,
            sink,
            opening: _,
            fault,
            halt,
        } = self;
        Pieces {
            core,
            sink,
            fault,
            halt,
        }
    }

    /// What is left of it.
    pub(crate) fn into_parts(self) -> Parts<K>
        ensures journal { result.journal.items ≡ self.history.events }
        ensures end { result.end ≡ (spec.state_of self).graph.end }
        ensures halt { result.halt ≡ self.history.halted }
        ensures out { told_by (K.held result.out) (K.room result.out) (K.sure result.out)
            (K.faults result.out) ≡ self.sink }
        ensures kept { spec.IsCluster self }
    {
        let end = self.core.end();
        let Keeper {
            core,
            sink,
            opening: _,
            fault: _,
            halt,
        } = self;
        Parts {
            out: sink,
            journal: journal_of(core),
            end,
            halt,
        }
    }
}

/// The journal of a core, which is dropped.
fn journal_of(core: Core) -> Vec<Event>
    ensures { result ≡ core.log.journal }
{
    let Core {
        alloc: _,
        program,
        setup,
        line,
        desk,
        log,
        lost: _,
        end: _,
    } = core;
    drop(program);
    drop(setup);
    drop(line);
    drop(desk);
    let Log { journal, counts } = log;
    drop(counts);
    journal
}

/// Whether a fault of the sink is kept behind a step.
fn fault_behind(moved: &Moved, fault: bool) -> bool
    ensures { result ≡ spec.fault_by moved.now fault }
{
    match moved {
        Moved::SinkFault => true,
        Moved::Did(_) | Moved::Nothing | Moved::Over | Moved::Lost => fault,
    }
}

/// The halt behind a step.
fn halt_behind(moved: &Moved, halt: Option<Halt>) -> Option<Halt>
    ensures { result ≡ spec.halt_by moved.now halt }
{
    match moved {
        Moved::SinkFault => Some(Halt::SinkFault),
        Moved::Did(_) | Moved::Nothing | Moved::Over | Moved::Lost => halt,
    }
}
