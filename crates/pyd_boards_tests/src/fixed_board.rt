//! A board of one run with a fixed list of tickets.
ghost use Rattle.std.specs.Prelude.{◌≡◌, [], None, IfOk, OnErr, OnOk};
ghost use Rattle.pyd_board.specs.declared.event.Act.TheVariants.{Finish};
ghost use Rattle.pyd_boards_tests.specs.Fixed as spec;

use crate::keeping::{append, halted_by, is_live};
use crate::{Reply, Slot};
use pyd_board::{Act, Event, Halt, Kept, Setup, Ticket, Who};
use pyd_boards::{Board, Claimed, Finished, Moved};
use pyd_tree::File;
use pyd_value::{End, NoMemory};
use std::alloc::Global;
use std::snapshot::Snapshot;

/// A board of one run. It has a ticket for the first attempt of each node whose number is below the window
/// of its setup. Nothing is placed, settled or lost on it, and its run doesn't end.
#[derive(Drop)]
pub struct FixedBoard {
    file: Snapshot<File>,
    setup: Setup,
    journal: Vec<Event>,
    halted: Option<Halt>,
}

impl FixedBoard {
    /// A board of this file and setup, on which nothing has happened.
    pub fn new(alloc: Global, file: &File, setup: Setup) -> FixedBoard
        ensures { spec.view result ≡ record {
          name = record { file = file.now; setup = setup; opening = None };
          events = [];
          halted = None;
        } }
    {
        FixedBoard {
            file: Snapshot::of(file),
            setup,
            journal: Vec::new(alloc),
            halted: None,
        }
    }

    // What a claim answers, and the board behind it.
    fn answer(&mut self, ticket: Ticket, who: Who) -> Result<Claimed<Slot>, NoMemory>
        ensures ok { IfOk result (λ answer.
            spec.Answers (spec.view self.old) ticket who answer (spec.view self.new)) }
        ensures same { OnErr result (spec.view self.new ≡ spec.view self.old) }
    {
        if self.halted.is_some() {
            return Ok(Claimed::Over);
        }
        if !is_live(
            self.setup.window,
            &self.journal,
            ticket.node,
            ticket.attempt,
        ) {
            return Ok(Claimed::Stale);
        }
        let act = Act::Claim(ticket.node, ticket.attempt, who.machine);
        append(&mut self.journal, who.seat, act)?;
        Ok(Claimed::Job(Slot {
            node: ticket.node,
            attempt: ticket.attempt,
        }))
    }

    // A Finish of the job.
    fn keep(&mut self, job: Slot, who: Who) -> Result<(), NoMemory>
        ensures ok { OnOk result (spec.view self.new ≡ spec.with_entry (spec.view self.old) who.seat
            (Finish job.node job.attempt who.machine)) }
        ensures same { OnErr result (spec.view self.new ≡ spec.view self.old) }
    {
        let act = Act::Finish(job.node, job.attempt, who.machine);
        append(&mut self.journal, who.seat, act)
    }
}

impl Kept for FixedBoard {
    ghost use Rattle.std.specs.Prelude.{◌∷◌, []};
    ghost use Rattle.pyd_boards_tests.specs.Fixed.{history_of, view};

    ghost name = { λ b. (view b).name ∷ [] };

    ghost history = { λ b. history_of (view b) };
}

impl Board for FixedBoard {
    type Job = Slot;

    type Done = Reply;

    ghost use Rattle.std.specs.Prelude.{false};
    ghost use Rattle.pyd_boards_tests.specs.Fixed.{facts, may_come};
    ghost use Rattle.pyd_boards_tests.specs.Lawful as laws;

    ghost facts = { facts };

    ghost may_come = { may_come };

    ghost is_single = { false };

    fn claim(&mut self, ticket: Ticket, who: Who) -> Result<Claimed<Slot>, (Ticket, NoMemory)> {
        match self.answer(ticket, who) {
            Ok(answer) => Ok(answer),
            Err(no_memory) => Err((ticket, no_memory)),
        }
    }

    fn finish(&mut self, done: Reply, who: Who) -> Result<Finished, (Reply, NoMemory)> {
        match self.keep(done.job, who) {
            Ok(()) => {
                drop(done);
                Ok(Finished::Kept)
            }
            Err(no_memory) => Err((done, no_memory)),
        }
    }

    fn step(&mut self, who: Who) -> Result<Moved, NoMemory> {
        let _ = who;
        if self.halted.is_some() {
            Ok(Moved::Over)
        } else {
            Ok(Moved::Nothing)
        }
    }

    fn lose_due(&mut self, who: Who) {
        let _ = who;
    }

    fn stop(&mut self, why: Halt) {
        self.halted = Some(halted_by(self.halted, why));
    }

    fn ended(&self) -> Option<End> {
        None
    }

    fn events(&self) -> u64 {
        self.journal.len() as u64
    }

    fn lost(&self, node: u64, machine: u32) -> bool {
        let _ = (node, machine);
        false
    }

    ghost end_of_run = { laws.end_of_run };

    ghost lawful = { laws.lawful };
}
