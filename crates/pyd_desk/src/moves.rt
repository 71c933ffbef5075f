//! What tickets, claims and records become by events.
ghost use Rattle.std.specs.Prelude.{◌≡◌, ◌<◌, Some, false, IsSome, OnOk, OnErr, length, vec_len, vec_capacity};
ghost use Rattle.pyd_runs.specs.Effects as runs;
ghost use Rattle.pyd_runs.specs.Effects.{State};
ghost use Rattle.pyd_runs.specs.Records.{ready};
ghost use Rattle.pyd_desk.specs.declared.line.Line.{Line};
ghost use Rattle.pyd_desk.specs.Desks as spec;
ghost use Rattle.pyd_desk.specs.Desks.{desk_of, silent};
ghost use Rattle.pyd_desk.specs.States.{Becomes, HasSameMachines, IsSameDesk, IsStateOf};

use crate::desk::{Desk, Held, Placed};
use crate::marks::{drop_claim, set_claim, set_machine, set_ticket};
use crate::stores::{keep_apart, put_in};
use pyd_ir::Job;
use pyd_meaning::Ran;
use pyd_store::a_store_is_a_map;
use pyd_value::{Boxed, NoMemory, Outcome};
use std::snapshot::Snapshot;

impl Desk {
    /// The node gets a ticket for an attempt on a machine, in the place of the one that it had.
    /// Takes no memory.
    pub fn place(&mut self, node: u64, attempt: u64, machine: u32)
        requires { node < length self.old.marks.items }
        ensures becomes { Becomes self.old self.new (λ s. runs.placed s node attempt machine) }
        ensures machines { HasSameMachines self.old self.new }
    {
        set_ticket(&mut self.marks, node, Placed { attempt, machine });
    }

    /// Makes room for one more claim that is kept apart. Where there is no memory, nothing changes.
    pub fn make_claim_room(&mut self) -> Result<(), NoMemory>
        ensures room { OnOk result (vec_len self.new.undone < vec_capacity self.new.undone) }
        ensures same { IsSameDesk self.old self.new }
    {
        self.undone.reserve(1)?;
        Ok(())
    }

    /// A seat takes on the job of an attempt, which is the node's where that is ready, and the
    /// ticket is used. A claim that a loss undid is kept apart, for which there is room:
    /// `make_claim_room` makes it. Takes no memory.
    pub fn take_on(&mut self, node: u64, attempt: u64, machine: u32, seat: u32, job: &Job)
        requires node { node < length self.old.marks.items }
        requires lives { spec.is_lost self.old.alive.items machine ≡ false }
        requires room { vec_len self.old.undone < vec_capacity self.old.undone }
        ensures becomes { (line : Line) (s : State) → IsStateOf line self.old s
            → ready s.graph s.desk.stores node attempt ≡ Some job.now
            → IsStateOf line self.new (runs.claimed s seat node attempt machine) }
        ensures machines { HasSameMachines self.old self.new }
    {
        let job = Snapshot::of(job);
        let held = Held {
            attempt,
            machine,
            seat,
            job,
        };
        let before = set_claim(&mut self.marks, node, held);
        keep_apart(&mut self.undone, self.alive.as_slice(), node, before);
    }

    /// What a job gave that isn't an effect's goes to the store of a machine, and the node's claim
    /// is done. Where there is no memory, the outcome is gone, and the desk is as it was.
    pub fn keep_record(&mut self, node: u64, machine: u32, outcome: Outcome) -> Result<(), NoMemory>
        requires node { node < length self.old.marks.items }
        requires machine { machine < length self.old.stores.items }
        requires claimed { IsSome ((desk_of self.old).claim node) }
        ensures ok { OnOk result (Becomes self.old self.new
            (λ s. runs.kept_by_machine s node machine (silent outcome))) }
        ensures machines { HasSameMachines self.old self.new }
        ensures same { OnErr result (IsSameDesk self.old self.new) }
    {
        a_store_is_a_map();
        match put_in(&mut self.stores, machine, node, outcome) {
            Ok(()) => {
                set_machine(&mut self.marks, node, machine);
                Ok(())
            }
            Err(NoMemory) => Err(NoMemory),
        }
    }

    /// What an effect's job gave and printed goes to the driver, and the node's claim is done.
    /// Takes no memory.
    pub fn keep_run(&mut self, node: u64, ran: Boxed<Ran>)
        requires node { node < length self.old.marks.items }
        requires driver { node < length self.old.driver.items }
        requires claimed { IsSome ((desk_of self.old).claim node) }
        ensures becomes { Becomes self.old self.new (λ s. runs.kept_by_driver s node ran) }
        ensures machines { HasSameMachines self.old self.new }
    {
        drop_claim(&mut self.marks, node);
        self.driver[node as usize] = Some(ran);
    }
}
