//! The cluster as a board.

use crate::cluster::Cluster;
use pyd_board::{Halt, Ticket, Who};
use pyd_boards::{Board, Claimed, Finished, Moved};
use pyd_ir::{Done, Job};
use pyd_source::Sink;
use pyd_value::{End, NoMemory};

/// A board of one run. Its calls tell the placer of each Finish and each loss.
impl<K: Sink + Drop> Board for Cluster<K> {
    type Job = Job;

    type Done = Done;

    ghost use Rattle.std.specs.Prelude.{true};
    ghost use Rattle.pyd_core.specs.Facts.{facts_by, may_come_by};
    ghost use Rattle.pyd_cluster.specs.Lawful as laws;

    ghost facts = { facts_by };

    ghost may_come = { may_come_by };

    ghost is_single = { true };

    fn claim(&mut self, ticket: Ticket, who: Who) -> Result<Claimed<Job>, (Ticket, NoMemory)> {
        match self.keeper.claim(&mut self.placer, ticket, who) {
            Ok(claimed) => Ok(claimed),
            Err(no_memory) => Err((ticket, no_memory)),
        }
    }

    fn finish(&mut self, done: Done, who: Who) -> Result<Finished, (Done, NoMemory)> {
        match self.keeper.finish(&mut self.placer, &done, who) {
            Ok(finished) => {
                drop(done);
                Ok(finished)
            }
            Err(no_memory) => Err((done, no_memory)),
        }
    }

    fn step(&mut self, who: Who) -> Result<Moved, NoMemory> {
        self.keeper.step(&mut self.placer, who)
    }

    fn lose_due(&mut self, who: Who) {
        self.keeper.lose_due(&mut self.placer, who);
    }

    fn stop(&mut self, why: Halt) {
        self.keeper.stop(why);
    }

    fn ended(&self) -> Option<End> {
        self.keeper.ended()
    }

    fn events(&self) -> u64 {
        self.keeper.events()
    }

    fn lost(&self, node: u64, machine: u32) -> bool {
        let _ = node;
        self.keeper.lost(machine)
    }

    ghost end_of_run = { laws.end_of_run };

    ghost lawful = { laws.lawful };
}
