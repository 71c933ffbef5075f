//! Losses that are due.
ghost use Rattle.std.specs.Prelude.{◌≡◌, ℕ, suc, drop, None, Some, All};
ghost use Rattle.pyd_board.specs.declared.event.Act.TheVariants.{Lose};
ghost use Rattle.pyd_runs.specs.Enabled.{CanLose, IsLoss, IsUnbarred, due};
ghost use Rattle.pyd_runs.specs.Losses as runs;
ghost use Rattle.pyd_runs.specs.NextLosses.{due_losses};
ghost use Rattle.pyd_runs.specs.Plans.{IsSeat};
ghost use Rattle.pyd_core.specs.Cores.{IsCore, plan_of, state_of};
ghost use Rattle.pyd_core.specs.Losing.{losses_by};
ghost use Rattle.pyd_core.specs.Steps.{ComesBy, KeepsRoom, Makes};

use crate::keeper::Core;
use pyd_board::{Act, Loss};
use pyd_runs::{beginning_law, desk_law, journal_law, only_due_law, run_law, step_law};

impl Core {
    /// All losses that are due come, one after another, by a seat: the driver where losses alone stand
    /// before the first of them. Takes no memory.
    pub fn lose_due(&mut self, seat: u32)
        requires core { IsCore self.old }
        requires seat { IsSeat (plan_of self.old) seat }
        requires driver { (state_of self.old).graph.end ≡ None
            → (machine : ℕ) → due (state_of self.old) ≡ Some machine
            → All (λ e. IsLoss e.act) self.old.log.journal.items → seat ≡ 0 }
        ensures losses { ComesBy self.old self.new (losses_by seat (state_of self.old)) }
        ensures none_due { IsUnbarred (state_of self.new) }
        ensures room { KeepsRoom self.old self.new }
    {
        if self.has_ended() || self.due_machine().is_none() {
            return;
        }
        self.lose_all(seat);
    }

    /// All losses that are due come, one after another, by a seat, while the run goes on.
    fn lose_all(&mut self, seat: u32)
        requires core { IsCore self.old }
        requires seat { IsSeat (plan_of self.old) seat }
        requires driver { All (λ e. IsLoss e.act) self.old.log.journal.items → seat ≡ 0 }
        requires goes_on { (state_of self.old).graph.end ≡ None }
        ensures losses { ComesBy self.old self.new (due_losses seat (state_of self.old)) }
        ensures none_due { due (state_of self.new) ≡ None }
        ensures room { KeepsRoom self.old self.new }
    {
        beginning_law();
        only_due_law();
        step_law();
        desk_law();
        journal_law();
        while let Some(machine) = self.due_machine() {
            self.lose(seat, machine);
        }
    }

    /// The machine whose loss is due.
    pub fn due_machine(&self) -> Option<u32>
        requires { IsCore self.now }
        ensures { result ≡ due (state_of self.now) }
    {
        journal_law();
        due_at(
            self.setup.losses.as_slice(),
            self.lost,
            self.log.journal.len(),
        )
    }

    /// The loss of a machine comes, by a seat. Takes no memory.
    pub fn lose(&mut self, seat: u32, machine: u32)
        requires core { IsCore self.old }
        requires seat { IsSeat (plan_of self.old) seat }
        requires can { CanLose (state_of self.old) seat machine }
        ensures makes { Makes self.old self.new seat (Lose machine) }
        ensures lost { self.new.lost ≡ suc self.old.lost }
        ensures room { KeepsRoom self.old self.new }
    {
        run_law();
        step_law();
        journal_law();
        self.desk.lose(&self.line, machine);
        self.log.note(seat, Act::Lose(machine));
        self.lost += 1;
    }
}

/// The machine of the loss at a place of a script, where it is due behind so many events.
#[tactic(auto, using(crate::proofs::Scripted::due_some, crate::proofs::Scripted::due_none))]
fn due_at(losses: &[Loss], place: usize, events: usize) -> Option<u32>
    ensures { result ≡ runs.due_at events (drop place losses.now) }
{
    let Some(loss) = losses.get(place) else {
        return None;
    };
    if loss.event as usize <= events {
        Some(loss.machine)
    } else {
        None
    }
}
