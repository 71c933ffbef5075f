//! Boards, which keep runs and say what is to be done.
ghost use Rattle.std.specs.Prelude.{◌≡◌, ◌⊎◌, [], ℕ, List, Bool, Some, true, IfOk, IfErr, Contains, is_some, length, map, slice_get};
ghost use Rattle.pyd_board.specs.declared.event.Event.{Event};
ghost use Rattle.pyd_board.specs.declared.history.Halt.TheVariants.{SinkFault};
ghost use Rattle.pyd_board.specs.declared.history.History.{History};
ghost use Rattle.pyd_board.specs.declared.kept.RunName.{RunName};
ghost use Rattle.pyd_boards.specs.Boards.{Facts, HoldsJob, IsWorker};
ghost use Rattle.pyd_boards.specs.Calls as call;
ghost use Rattle.pyd_boards.specs.Lawful.{AreLawful};
ghost use Rattle.pyd_boards.specs.Moves as moves;
ghost use Rattle.pyd_board.specs.Serving.{Serves, basis_of};

use crate::{Claimed, Finished, Moved};
use pyd_board::{Answer, Halt, Kept, Ticket, Who};
use pyd_value::{End, NoMemory};

/// What keeps runs: it hands out jobs and takes their outcomes, settles, refines and places nodes, and
/// loses machines when their losses are due. `claim`, `finish`, `step` and `lose_due` first append the
/// losses that are due in each run on which they act. All events of a call are by its seat, and each of
/// them may come in its turn. Refused for memory, a call has appended such losses and nothing else.
pub trait Board: Kept {
    type Job: Drop;

    type Done: Answer<Self::Job> + Drop;

    /// What it tells of events and histories, by its name.
    ghost facts: { List RunName → Facts Self.Job };

    /// Which event may come after events, by its name.
    ghost may_come: { List RunName → List Event → Event → Type 0 };

    /// Whether it counts as a board of one run.
    ghost is_single: { Bool };

    /// Gives the job of the ticket to the seat, which then holds it. A ticket for another
    /// machine is taken too, by the seat's machine. The ticket comes back where the seat's machine is
    /// lost, and where there is no memory.
    fn claim(&mut self, ticket: Ticket, who: Who) -> Result<Claimed<Self::Job>, (Ticket, NoMemory)>
        requires who { IsWorker (Self.name self.old) who }
        ensures name { Self.name self.new ≡ Self.name self.old }
        ensures goes_on { call.GoesOnBy (may_come (Self.name self.old)) who.seat
            (Self.history self.old) (Self.history self.new) }
        ensures answer { IfOk result (λ answer.
            call.Claims (facts (Self.name self.old)) (may_come (Self.name self.old))
            (Self.name self.old) ticket who
            (Self.history self.old) answer (Self.history self.new)) }
        // The job is of the node's run, and fits that run's file.
        ensures run { IfOk result (λ answer. call.IfJob answer (λ job.
            Self.Done.run job ≡ (facts (Self.name self.old)).run ticket.node)) }
        ensures fits { IfOk result (λ answer. call.IfJob answer (λ job.
            Serves (map basis_of (Self.name self.old)) (Self.Done.run job) (Self.Done.fits job))) }
        ensures over { call.IsConcluded (facts (Self.name self.old))
            (Self.name self.old) (Self.history self.new) }
        ensures memory { IfErr result (λ e. (e.0 ≡ ticket)
            × call.LosesIn (facts (Self.name self.old)) (may_come (Self.name self.old))
            ((facts (Self.name self.old)).run ticket.node)
            (Self.history self.old) (Self.history self.new)) };

    /// Takes the outcome of a job that the seat holds, which then holds it no more. The outcome is
    /// dropped where the machine was lost since, or the run has ended. It comes back where there is
    /// no memory.
    fn finish(&mut self, done: Self::Done, who: Who) -> Result<Finished, (Self::Done, NoMemory)>
        requires who { IsWorker (Self.name self.old) who }
        requires held { HoldsJob (facts (Self.name self.old)) who (Self.Done.job done)
            (Self.history self.old).events }
        requires basis { slice_get (map basis_of (Self.name self.old))
            (Self.Done.run (Self.Done.job done)) ≡ Some (Self.Done.basis done) }
        ensures name { Self.name self.new ≡ Self.name self.old }
        ensures goes_on { call.GoesOnBy (may_come (Self.name self.old)) who.seat
            (Self.history self.old) (Self.history self.new) }
        ensures answer { (held : HoldsJob (facts (Self.name self.old)) who (Self.Done.job done)
            (Self.history self.old).events) → IfOk result (λ answer.
            call.Finishes (facts (Self.name self.old)) (may_come (Self.name self.old))
            held.claim who (Self.history self.old) answer (Self.history self.new)) }
        ensures back { IfErr result (λ e. e.0 ≡ done) }
        ensures over { call.IsConcluded (facts (Self.name self.old))
            (Self.name self.old) (Self.history self.new) }
        ensures memory { (held : HoldsJob (facts (Self.name self.old)) who (Self.Done.job done)
            (Self.history self.old).events) → IfErr result (λ e.
            call.LosesIn (facts (Self.name self.old)) (may_come (Self.name self.old))
            ((facts (Self.name self.old)).run held.claim.node)
            (Self.history self.old) (Self.history self.new)) };

    /// In one run that isn't over, does the first of three things that is possible there: settles the
    /// head, and trims the past nodes that nobody reaches; refines the first composite that may be; or
    /// places nodes. A board of several runs answers a fault of a run's sink as a step without tickets.
    fn step(&mut self, who: Who) -> Result<Moved, NoMemory>
        requires who { IsWorker (Self.name self.old) who }
        ensures name { Self.name self.new ≡ Self.name self.old }
        ensures goes_on { call.GoesOnBy (may_come (Self.name self.old)) who.seat
            (Self.history self.old) (Self.history self.new) }
        ensures answer { IfOk result (λ answer.
            moves.Steps (facts (Self.name self.old)) (may_come (Self.name self.old)) is_single
            (Self.name self.old) who (Self.history self.old) answer (Self.history self.new)) }
        ensures numbered { is_single ≡ true → IfOk result (λ answer.
            moves.AreNumbered (moves.moved_tickets answer)) }
        ensures over { call.IsConcluded (facts (Self.name self.old))
            (Self.name self.old) (Self.history self.new) }
        ensures memory { IfErr result (λ _.
            moves.LosesFirst (facts (Self.name self.old)) (may_come (Self.name self.old)) is_single
            (Self.history self.old) (Self.history self.new)) };

    /// Appends the losses that are due, in every run. The driver may call it too. Takes no memory.
    fn lose_due(&mut self, who: Who)
        requires who { IsWorker (Self.name self.old) who ⊎ (who.seat ≡ 0) }
        ensures name { Self.name self.new ≡ Self.name self.old }
        ensures goes_on { call.GoesOnBy (may_come (Self.name self.old)) who.seat
            (Self.history self.old) (Self.history self.new) }
        ensures losses { moves.LosesAll (facts (Self.name self.old)) (may_come (Self.name self.old))
            (Self.history self.old) (Self.history self.new) }
        ensures over { call.IsConcluded (facts (Self.name self.old))
            (Self.name self.old) (Self.history self.new) };

    /// Halts the board; the first cause stays. Takes no memory.
    fn stop(&mut self, why: Halt)
        requires cause { why ≡ SinkFault
            → ((run : ℕ) × Contains (Self.history self.old).sink_faults run) }
        ensures name { Self.name self.new ≡ Self.name self.old }
        ensures halted { Self.history self.new ≡ record (Self.history self.old) {
          halted = Some (call.halted_by (Self.history self.old).halted why);
        } };

    /// The board's end, which for a board of one run is that run's. Takes no memory.
    fn ended(&self) -> Option<End>
        ensures value { result
            ≡ (facts (Self.name self.now)).end (Self.history self.now) };

    /// How many events there are. Takes no memory.
    fn events(&self) -> u64
        ensures value { result ≡ length (Self.history self.now).events }
        ensures within { is_single ≡ true → call.IsWithin (Self.history self.now) };

    /// Whether the machine is lost in the node's run, also where that run is over. Takes no memory.
    fn lost(&self, node: u64, machine: u32) -> bool
        ensures value { result ≡ (facts (Self.name self.now)).has_lost
            (Self.history self.now).events ((facts (Self.name self.now)).run node) machine };

    /// The end of a board of one run is there exactly where that run has ended.
    ghost end_of_run: { (name : List RunName) (h : History) → is_single ≡ true
        → is_some ((facts name).end h) ≡ (facts name).has_ended h.events 0 };

    /// What it tells goes with the events that may come, after events that came each in its turn.
    ghost lawful: { (name : List RunName) (events : List Event)
        → call.AreNext (may_come name) [] events
        → AreLawful name (facts name) (may_come name) events };
}
