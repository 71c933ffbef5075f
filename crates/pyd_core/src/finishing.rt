//! Outcomes of claims.
ghost use Rattle.std.specs.Prelude.{◌≡◌, ◌<◌, true, false, length, IfOk, IsSome, OnOk, OnErr};
ghost use Rattle.pyd_board.specs.declared.event.Act.TheVariants.{Drop as SpecDrop, Finish};
ghost use Rattle.pyd_runs.specs.Effects as runs;
ghost use Rattle.pyd_runs.specs.Enabled.{IsUnbarred};
ghost use Rattle.pyd_runs.specs.Plans.{limits_of};
ghost use Rattle.pyd_runs.specs.Releases.{HoldsClaim};
ghost use Rattle.pyd_desk.specs.Desks.{desk_of};
ghost use Rattle.pyd_desk.specs.States.{Becomes, HasSameMachines, IsSameDesk};
ghost use Rattle.pyd_core.specs.Cores.{HasRoom, IsCore, plan_of, state_of};
ghost use Rattle.pyd_core.specs.Finishing as spec;
ghost use Rattle.pyd_core.specs.Finishing.{HoldsClaimWith};
ghost use Rattle.pyd_core.specs.Steps.{Makes, Stays};

use crate::keeper::Core;
use pyd_board::Act;
use pyd_boards::Finished;
use pyd_desk::Desk;
use pyd_ir::{Done, Task};
use pyd_meaning::Ran;
use pyd_runs::{
    callee_law, journal_law, leave_law, number_law, release_law, run_law, seat_law, step_law,
};
use pyd_value::{Boxed, NoMemory, Outcome, try_copy};
use std::alloc::Global;

impl Core {
    /// A seat of a machine gives what was done of a job that it holds, and holds it no more. The
    /// outcome is dropped where the machine is lost, or the run has ended. Where there is no
    /// memory, nothing but room has changed.
    pub fn finish(
        &mut self,
        seat: u32,
        node: u64,
        attempt: u64,
        machine: u32,
        done: &Done,
    ) -> Result<Finished, NoMemory>
        requires core { IsCore self.old }
        requires unbarred { IsUnbarred (state_of self.old) }
        requires holds { HoldsClaimWith (state_of self.old) seat node attempt machine done.now.job }
        requires file { done.now.file.value ≡ self.old.program.file }
        requires limits { done.now.limits ≡ limits_of (plan_of self.old) }
        ensures answer { IfOk result (λ answer. answer
            ≡ spec.answer_of (state_of self.old) machine) }
        ensures entry { IfOk result (λ answer. Makes self.old self.new seat
            (spec.act_of answer node attempt machine)) }
        ensures memory { OnErr result (Stays self.old self.new) }
    {
        self.make_room(1)?;
        if self.is_in_vain(machine) {
            self.let_go(seat, node, attempt, machine);
            return Ok(Finished::Dropped);
        }
        match self.keep(seat, node, attempt, machine, done) {
            Ok(()) => Ok(Finished::Kept),
            Err(NoMemory) => Err(NoMemory),
        }
    }

    /// Whether a claim of a machine is in vain: the machine is lost, or the run has ended.
    fn is_in_vain(&self, machine: u32) -> bool
        requires { IsCore self.now }
        ensures { result ≡ spec.is_in_vain (state_of self.now) machine }
    {
        self.is_lost(machine) || self.has_ended()
    }

    /// A claim that is in vain is let go, for which there is an entry's room. Takes no memory.
    pub fn let_go(&mut self, seat: u32, node: u64, attempt: u64, machine: u32)
        requires core { IsCore self.old }
        requires unbarred { IsUnbarred (state_of self.old) }
        requires holds { HoldsClaim (state_of self.old) seat node attempt machine }
        requires in_vain { spec.is_in_vain (state_of self.old) machine ≡ true }
        requires room { HasRoom 1 self.old }
        ensures { Makes self.old self.new seat (SpecDrop node attempt machine) }
    {
        run_law();
        step_law();
        journal_law();
        number_law();
        seat_law();
        release_law();
        self.desk.let_go(node, attempt, machine);
        self.log.note(seat, Act::Drop(node, attempt, machine));
    }

    /// What was done of a claim's job is kept, and the claim is done.
    fn keep(
        &mut self,
        seat: u32,
        node: u64,
        attempt: u64,
        machine: u32,
        done: &Done,
    ) -> Result<(), NoMemory>
        requires core { IsCore self.old }
        requires unbarred { IsUnbarred (state_of self.old) }
        requires holds { HoldsClaimWith (state_of self.old) seat node attempt machine done.now.job }
        requires serves { spec.is_in_vain (state_of self.old) machine ≡ false }
        requires room { HasRoom 1 self.old }
        requires file { done.now.file.value ≡ self.old.program.file }
        requires limits { done.now.limits ≡ limits_of (plan_of self.old) }
        ensures ok { OnOk result (Makes self.old self.new seat (Finish node attempt machine)) }
        ensures memory { OnErr result (Stays self.old self.new) }
    {
        run_law();
        step_law();
        journal_law();
        number_law();
        seat_law();
        release_law();
        callee_law();
        leave_law();
        match keep_done(&mut self.desk, self.alloc, node, machine, done) {
            Ok(()) => {
                self.log.note(seat, Act::Finish(node, attempt, machine));
                Ok(())
            }
            Err(NoMemory) => Err(NoMemory),
        }
    }
}

/// What was done of a node's job is kept: by the driver if it is an effect's, else by a machine.
/// Where there is no memory, nothing changes.
fn keep_done(
    desk: &mut Desk,
    alloc: Global,
    node: u64,
    machine: u32,
    done: &Done,
) -> Result<(), NoMemory>
    requires node { node < length desk.old.marks.items }
    requires driver { node < length desk.old.driver.items }
    requires machine { machine < length desk.old.stores.items }
    requires claimed { IsSome ((desk_of desk.old).claim node) }
    ensures ok { OnOk result (Becomes desk.old desk.new
        (λ s. spec.with_record s node machine done.now.job.task done.now.ran)) }
    ensures same { OnErr result (IsSameDesk desk.old desk.new) }
    ensures machines { HasSameMachines desk.old desk.new }
{
    if is_run(&done.job.task) {
        let ran = copy_ran(alloc, &done.ran)?;
        desk.keep_run(node, ran);
        Ok(())
    } else {
        let outcome = copy_outcome(alloc, &done.ran.outcome)?;
        desk.keep_record(node, machine, outcome)
    }
}

/// Whether a task is the call of a function that isn't pure.
fn is_run(task: &Task) -> bool
    ensures { result ≡ runs.is_run task.now }
{
    match task {
        Task::Op { .. } | Task::Read { .. } | Task::Call { .. } => false,
        Task::Run { .. } => true,
    }
}

/// A copy of what a call left, which shares its values and lines.
fn copy_ran(alloc: Global, ran: &Ran) -> Result<Boxed<Ran>, NoMemory>
    ensures { IfOk result (λ copy. copy ≡ ran.now) }
{
    let lines = ran.lines.try_clone()?;
    let outcome = copy_outcome(alloc, &ran.outcome)?;
    Boxed::new(alloc, Ran { outcome, lines })
}

/// A copy of an outcome, which shares its value.
fn copy_outcome(alloc: Global, outcome: &Outcome) -> Result<Outcome, NoMemory>
    ensures { IfOk result (λ copy. copy ≡ outcome.now) }
{
    match outcome {
        Outcome::Ok(value) => Ok(Outcome::Ok(try_copy(alloc, value)?)),
        Outcome::Fault(fault) => Ok(Outcome::Fault(*fault)),
    }
}
