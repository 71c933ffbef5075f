//! What a machine that is lost takes with it.
ghost use Rattle.std.specs.Prelude.{◌≡◌, ◌<◌, ◌≤◌, All, length, true};
ghost use Rattle.pyd_runs.specs.Desks.{put_at};
ghost use Rattle.pyd_runs.specs.Effects as runs;
ghost use Rattle.pyd_runs.specs.Effects.{State};
ghost use Rattle.pyd_runs.specs.Plans.{Plan};
ghost use Rattle.pyd_runs.specs.Sound.{IsSound};
ghost use Rattle.pyd_desk.specs.Desks.{desk_of, is_lost};
ghost use Rattle.pyd_desk.specs.Losing.{cleared};
ghost use Rattle.pyd_desk.specs.States.{HasSameMachines, IsStateOf};

use crate::desk::Desk;
use crate::line::Line;
use crate::stores::{clear_store, mark_lost};
use pyd_store::a_store_is_a_map;

impl Desk {
    /// A machine's store is emptied, and its claims are undone.
    fn clear(&mut self, machine: u32)
        requires store { machine < length self.old.stores.items }
        requires alive { machine < length self.old.alive.items }
        ensures desk { desk_of self.new ≡ cleared machine (desk_of self.old) }
        ensures lost { is_lost self.new.alive.items
            ≡ put_at (is_lost self.old.alive.items) machine true }
        ensures marks { self.new.marks ≡ self.old.marks }
        ensures driver { self.new.driver ≡ self.old.driver }
        ensures machines { HasSameMachines self.old self.new }
    {
        a_store_is_a_map();
        clear_store(&mut self.stores, machine);
        mark_lost(&mut self.alive, machine);
    }

    /// A machine is lost: its store is emptied, its claims are undone, and the tickets of nodes
    /// that are no longer ready die. Takes no memory.
    pub fn lose(&mut self, line: &Line, machine: u32)
        requires line { line.now.settled ≤ length line.now.nodes.items }
        requires numbered { All (λ n. n.id < length self.old.marks.items) line.now.nodes.items }
        requires store { machine < length self.old.stores.items }
        requires alive { machine < length self.old.alive.items }
        ensures becomes { (p : Plan) (s : State) → IsSound p s → IsStateOf line.now self.old s
            → IsStateOf line.now self.new (runs.lost_with s machine) }
        ensures machines { HasSameMachines self.old self.new }
    {
        self.clear(machine);
        self.drop_tickets(line);
    }
}
