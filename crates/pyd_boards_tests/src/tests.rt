//! Tickets that are claimed, run and finished on the board, through the bound.
ghost use Rattle.std.specs.Prelude.{◌≡◌, ◌∷◌, [], None, slice_get};
ghost use Rattle.pyd_boards.specs.Boards.{IsWorker};
ghost use Rattle.pyd_board.specs.Serving.{SameBases};

use crate::{FixedBoard, Reply, Slot};
use pyd_board::{Halt, Runner, Setup, Ticket, Who};
use pyd_boards::{Board, Finished, Moved, Served, claimed_is_held, serve};
use pyd_tree::File;
use pyd_value::{List, NoMemory};
use std::alloc::Global;
use std::snapshot::Snapshot;
use std::test::Fail;

/// Gives each job back as done.
#[derive(Drop)]
struct AtOnce {
    file: File,
}

impl Runner for AtOnce {
    type Job = Slot;

    type Done = Reply;

    ghost use Rattle.std.specs.Prelude.{◌∷◌, []};

    ghost bases = { λ runner. record { file = runner.file; turns = 10; depth = 4 } ∷ [] };

    fn file(&self, job: &Slot) -> &File {
        let _ = job;
        &self.file
    }

    fn run(&self, job: Slot) -> Result<Reply, (Slot, NoMemory)> {
        Ok(Reply {
            job,
            file: Snapshot::of(&self.file),
            turns: 10,
            depth: 4,
        })
    }
}

/// What comes of a ticket for the attempt, on any board that the runner serves.
fn served<B: Board, R: Runner<Job = B::Job, Done = B::Done>>(
    board: &mut B,
    runner: &R,
    node: u64,
    attempt: u64,
) -> Option<Served>
    requires who { IsWorker (B.name board.old) (record { seat = 1; machine = 0 }) }
    requires bases { SameBases (B.name board.old) (R.bases runner.now) }
    ensures name { B.name board.new ≡ B.name board.old }
{
    let ticket = Ticket {
        node,
        attempt,
        machine: 0,
    };
    let who = Who {
        seat: 1,
        machine: 0,
    };
    serve(board, runner, ticket, who).ok()
}

fn setup(alloc: Global) -> Setup
    ensures { result ≡ record {
      turns = 10;
      depth = 4;
      machines = 1;
      workers = 1;
      window = 2;
      losses = [];
    } }
{
    Setup {
        turns: 10,
        depth: 4,
        machines: 1,
        workers: 1,
        window: 2,
        losses: List::new(alloc),
    }
}

#[test]
fn each_ticket_is_served_once(rt: HostRuntime) -> Result<(), Fail> {
    let alloc = rt.alloc();
    let runner = AtOnce {
        file: File {
            items: List::new(alloc),
        },
    };
    let mut board = FixedBoard::new(alloc, &runner.file, setup(alloc));
    claimed_is_held::<FixedBoard>();
    assert!(rt; served(&mut board, &runner, 0, 1) == Some(Served::Done(Finished::Kept)));
    assert!(rt; served(&mut board, &runner, 0, 1) == Some(Served::Stale));
    assert!(rt; served(&mut board, &runner, 2, 1) == Some(Served::Stale));
    assert!(rt; served(&mut board, &runner, 1, 2) == Some(Served::Stale));
    assert!(rt; served(&mut board, &runner, 1, 1) == Some(Served::Done(Finished::Kept)));
    assert!(rt; board.events() == 4);
    let who = Who {
        seat: 1,
        machine: 0,
    };
    assert!(rt; matches!(board.step(who), Ok(Moved::Nothing)));
    board.lose_due(who);
    assert!(rt; board.ended().is_none() && !board.lost(0, 0));
    board.stop(Halt::NoMemory);
    assert!(rt; matches!(board.step(who), Ok(Moved::Over)));
    assert!(rt; served(&mut board, &runner, 1, 1) == Some(Served::Over));
    Ok(())
}
