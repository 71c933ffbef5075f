//! The least work on a board: one ticket, in one turn.
ghost use Rattle.std.specs.Prelude.{◌≡◌, IfOk, map};
ghost use Rattle.pyd_boards.specs.Boards.{HoldsJob, IsWorker};
ghost use Rattle.pyd_boards.specs.Calls.{Finishes};
ghost use Rattle.pyd_board.specs.Histories.{ExtendsBy};
ghost use Rattle.pyd_board.specs.Serving.{SameBases, Serves, basis_of};
ghost use Rattle.pyd_boards.specs.Working.{Works};

use crate::{Board, Claimed, Finished};
use pyd_board::{Runner, Ticket, Who};
use pyd_value::NoMemory;

/// What came of a ticket.
#[derive(Clone, Copy, Debug, PartialEq, Eq)]
pub enum Served {
    /// Its job was run, and this became of its outcome.
    Done(Finished),
    Over,
    Lost,
    Stale,
}

/// Claims a ticket, runs its job and finishes it. Where there is no memory for its outcome, the seat
/// still holds the claim, and the board is to be stopped.
pub fn serve<B: Board, R: Runner<Job = B::Job, Done = B::Done>>(
    board: &mut B,
    runner: &R,
    ticket: Ticket,
    who: Who,
) -> Result<Served, NoMemory>
    requires who { IsWorker (B.name board.old) who }
    requires bases { SameBases (B.name board.old) (R.bases runner.now) }
    ensures name { B.name board.new ≡ B.name board.old }
    ensures by { ExtendsBy who.seat (B.history board.old) (B.history board.new) }
    ensures answer { IfOk result (λ served.
        Works (B.facts (B.name board.old)) (B.may_come (B.name board.old)) (B.name board.old)
        ticket who (B.history board.old) served (B.history board.new)) }
{
    match board.claim(ticket, who) {
        Ok(Claimed::Job(job)) => Ok(Served::Done(run_and_finish(board, runner, job, who)?)),
        Ok(Claimed::Over) => Ok(Served::Over),
        Ok(Claimed::Lost(_)) => Ok(Served::Lost),
        Ok(Claimed::Stale) => Ok(Served::Stale),
        Err((_, no_memory)) => Err(no_memory),
    }
}

// Runs a job that the seat holds, and finishes it.
fn run_and_finish<B: Board, R: Runner<Job = B::Job, Done = B::Done>>(
    board: &mut B,
    runner: &R,
    job: B::Job,
    who: Who,
) -> Result<Finished, NoMemory>
    requires who { IsWorker (B.name board.old) who }
    requires bases { SameBases (B.name board.old) (R.bases runner.now) }
    requires held { HoldsJob (B.facts (B.name board.old)) who job (B.history board.old).events }
    requires fits { Serves (map basis_of (B.name board.old)) (B.Done.run job) (B.Done.fits job) }
    ensures name { B.name board.new ≡ B.name board.old }
    ensures by { ExtendsBy who.seat (B.history board.old) (B.history board.new) }
    ensures answer { (held : HoldsJob (B.facts (B.name board.old)) who job
        (B.history board.old).events) → IfOk result (λ answer.
        Finishes (B.facts (B.name board.old)) (B.may_come (B.name board.old))
        held.claim who (B.history board.old) answer (B.history board.new)) }
{
    match runner.run(job) {
        Ok(done) => match board.finish(done, who) {
            Ok(finished) => Ok(finished),
            Err((done, no_memory)) => {
                drop(done);
                Err(no_memory)
            }
        },
        Err((job, no_memory)) => {
            drop(job);
            Err(no_memory)
        }
    }
}
