//! Claims of tickets.
ghost use Rattle.std.specs.Prelude.{◌≡◌, ◌<◌, Some, is_some, option_map, vec_len, vec_capacity, IfOk, OnOk, OnErr, MatchOption};
ghost use Rattle.pyd_board.specs.declared.event.Act.TheVariants.{Claim};
ghost use Rattle.pyd_runs.specs.Enabled.{IsQuiet, Lives};
ghost use Rattle.pyd_runs.specs.Plans.{IsSeatOf};
ghost use Rattle.pyd_desk.specs.Desks.{mark_at, placed_of};
ghost use Rattle.pyd_core.specs.Claiming as spec;
ghost use Rattle.pyd_core.specs.Cores.{HasRoom, IsCore, plan_of, state_of};
ghost use Rattle.pyd_core.specs.Steps.{Makes, Stays};

use crate::keeper::Core;
use pyd_board::Act;
use pyd_desk::Mark;
use pyd_ir::Job;
use pyd_runs::{journal_law, run_law, step_law, ticket_law};
use pyd_value::NoMemory;

impl Core {
    /// A seat of a machine claims an attempt of a node. Answers the node's job where the attempt is
    /// the node's live ticket; else, and where there is no memory, nothing but room has changed.
    pub fn claim(
        &mut self,
        seat: u32,
        node: u64,
        attempt: u64,
        machine: u32,
    ) -> Result<Option<Job>, NoMemory>
        requires core { IsCore self.old }
        requires quiet { IsQuiet (state_of self.old) }
        requires of { IsSeatOf (plan_of self.old) machine seat }
        requires lives { Lives (plan_of self.old) (state_of self.old).lost machine }
        ensures job { IfOk result (λ job. job ≡ spec.live_job (state_of self.old) node attempt) }
        ensures live { IfOk result (λ job. is_some job
            ≡ spec.is_for attempt ((state_of self.old).desk.ticket node)) }
        ensures claims { IfOk result (λ job. MatchOption job (Stays self.old self.new)
            (λ _. Makes self.old self.new seat (Claim node attempt machine))) }
        ensures memory { OnErr result (Stays self.old self.new) }
    {
        match self.live_job(node, attempt)? {
            Some(job) => match self.make_claim_room() {
                Ok(()) => {
                    self.take_on(seat, machine, node, attempt, &job);
                    Ok(Some(job))
                }
                Err(NoMemory) => {
                    drop(job);
                    Err(NoMemory)
                }
            },
            None => Ok(None),
        }
    }

    /// The job of an attempt of a node, where that is the node's live ticket.
    fn live_job(&self, node: u64, attempt: u64) -> Result<Option<Job>, NoMemory>
        requires { IsCore self.now }
        ensures job { IfOk result (λ job. job ≡ spec.live_job (state_of self.now) node attempt) }
        ensures live { IfOk result (λ job. is_some job
            ≡ spec.is_for attempt ((state_of self.now).desk.ticket node)) }
    {
        run_law();
        ticket_law();
        if has_ticket(self.desk.marks.as_slice(), node, attempt) {
            self.desk.ready(self.alloc, &self.line, node, attempt)
        } else {
            Ok(None)
        }
    }

    /// Makes room for a claim: an entry, and a claim that is kept apart.
    fn make_claim_room(&mut self) -> Result<(), NoMemory>
        requires { IsCore self.old }
        ensures room { OnOk result (HasRoom 1 self.new) }
        ensures apart { OnOk result (vec_len self.new.desk.undone
            < vec_capacity self.new.desk.undone) }
        ensures stays { Stays self.old self.new }
    {
        self.make_room(1)?;
        self.desk.make_claim_room()
    }

    /// A seat takes on the job of an attempt of a node, for which there is room.
    fn take_on(&mut self, seat: u32, machine: u32, node: u64, attempt: u64, job: &Job)
        requires core { IsCore self.old }
        requires quiet { IsQuiet (state_of self.old) }
        requires of { IsSeatOf (plan_of self.old) machine seat }
        requires lives { Lives (plan_of self.old) (state_of self.old).lost machine }
        requires job { spec.live_job (state_of self.old) node attempt ≡ Some job.now }
        requires room { HasRoom 1 self.old }
        requires apart { vec_len self.old.desk.undone < vec_capacity self.old.desk.undone }
        ensures { Makes self.old self.new seat (Claim node attempt machine) }
    {
        step_law();
        journal_law();
        self.desk.take_on(node, attempt, machine, seat, job);
        self.log.note(seat, Act::Claim(node, attempt, machine));
    }
}

/// Whether a node has a ticket for an attempt.
fn has_ticket(marks: &[Mark], node: u64, attempt: u64) -> bool
    ensures { result
        ≡ spec.is_for attempt (option_map placed_of (mark_at marks.now node).ticket) }
{
    match marks.get(node as usize) {
        Some(mark) => match mark.ticket {
            Some(ticket) => ticket.attempt == attempt,
            None => false,
        },
        None => false,
    }
}
