//! The cluster.
ghost use Rattle.std.specs.Prelude.{◌≡◌, ◌∷◌, [], IfErr, IfOk};
ghost use Rattle.pyd_board.specs.Histories.{events_alone};
ghost use Rattle.pyd_core.specs.Cores.{IsCore, IsFew, plan_of};
ghost use Rattle.pyd_core.specs.Losing.{losses_by};
ghost use Rattle.pyd_runs.specs.Effects.{first_state};
ghost use Rattle.pyd_runs.specs.Laws.{IsRunnable};
ghost use Rattle.pyd_steps.specs.Sinks.{told_by};
ghost use Rattle.pyd_cluster.specs.Keeping as spec;

use crate::keeper::Keeper;
use pyd_board::{Event, Halt, Kept, Placer, Setup};
use pyd_core::Core;
use pyd_scope::Program;
use pyd_source::Sink;
use pyd_steps::lose_due;
use pyd_value::{End, NoMemory};
use std::alloc::Global;

/// Keeps a run, its sink and its placer.
#[derive(Drop)]
pub struct Cluster<K: Sink + Drop> {
    pub(crate) keeper: Keeper<K>,
    pub(crate) placer: Option<Box<dyn Placer + Send>>,
}

/// What is left of a cluster.
pub struct Parts<K> {
    pub out: K,
    pub journal: Vec<Event>,
    pub end: Option<End>,
    pub halt: Option<Halt>,
}

/// A run as far as it has come and its sink, apart.
pub struct Pieces<K> {
    pub core: Core,
    pub sink: K,
    /// Whether a fault of the sink is kept.
    pub fault: bool,
    pub halt: Option<Halt>,
}

impl<K: Sink + Drop> Kept for Cluster<K> {
    ghost use Rattle.std.specs.Prelude.{◌∷◌, []};

    ghost name = { λ c. c.keeper.run ∷ [] };

    ghost history = { λ c. c.keeper.history };
}

impl<K: Sink + Drop> Cluster<K> {
    /// A run of a program, whose lines go to a sink. The losses that are due come first, by the
    /// driver, unless the run has ended; the placer is told of them. Where there is no memory the sink
    /// comes back.
    pub fn start(
        alloc: Global,
        program: Program,
        setup: Setup,
        sink: K,
        placer: Option<Box<dyn Placer + Send>>,
    ) -> Result<Cluster<K>, (K, NoMemory)>
        requires runnable { IsRunnable (record { file = program.file; setup = setup }) }
        requires few { IsFew setup }
        ensures name { IfOk result (λ cluster. cluster.keeper.run ≡ record {
          file = program.file;
          setup = setup;
          opening = K.held sink;
        }) }
        ensures history { IfOk result (λ cluster. cluster.keeper.history ≡ events_alone
            (losses_by 0 (first_state (record { file = program.file; setup = setup })))) }
        ensures opening { IfOk result (λ cluster. cluster.keeper.opening
            ≡ told_by (K.held sink) (K.room sink) (K.sure sink) (K.faults sink)) }
        ensures sink { IfOk result (λ cluster. cluster.keeper.sink
            ≡ told_by (K.held sink) (K.room sink) (K.sure sink) (K.faults sink)) }
        ensures back { IfErr result (λ e. e.0 ≡ sink) }
    {
        match Core::start(alloc, program, setup) {
            Ok(core) => Ok(Cluster::begin(core, sink, placer)),
            Err(NoMemory) => {
                drop(placer);
                Err((sink, NoMemory))
            }
        }
    }

    /// A run before any event, its sink and its placer: the losses that are due come.
    fn begin(core: Core, sink: K, placer: Option<Box<dyn Placer + Send>>) -> Cluster<K>
        requires core { IsCore core }
        requires none { core.log.journal.items ≡ [] }
        ensures run { result.keeper.run ≡ record {
          file = core.program.file;
          setup = core.setup;
          opening = K.held sink;
        } }
        ensures history { result.keeper.history
            ≡ events_alone (losses_by 0 (first_state (plan_of core))) }
        ensures opening { result.keeper.opening
            ≡ told_by (K.held sink) (K.room sink) (K.sure sink) (K.faults sink) }
        ensures sink { result.keeper.sink
            ≡ told_by (K.held sink) (K.room sink) (K.sure sink) (K.faults sink) }
    {
        let mut core = core;
        let mut placer = placer;
        lose_due(&mut core, &mut placer, 0);
        Cluster {
            keeper: Keeper::start(core, sink),
            placer,
        }
    }

    /// The run and its sink, apart. The placer is dropped. Takes no memory.
    pub fn into_pieces(self) -> Pieces<K>
        ensures core { IsCore result.core }
        ensures known { spec.known_by result.core result.fault result.halt self.keeper.opening
            (told_by (K.held result.sink) (K.room result.sink) (K.sure result.sink)
            (K.faults result.sink)) ≡ self.keeper }
        ensures kept { spec.IsKept result.fault self.keeper }
    {
        let Cluster { keeper, placer } = self;
        drop(placer);
        keeper.into_pieces()
    }

    /// What is left of it. The placer is dropped. Takes no memory.
    pub fn into_parts(self) -> Parts<K>
        ensures journal { result.journal.items ≡ self.keeper.history.events }
        ensures end { result.end ≡ (spec.state_of self.keeper).graph.end }
        ensures halt { result.halt ≡ self.keeper.history.halted }
        ensures out { told_by (K.held result.out) (K.room result.out) (K.sure result.out)
            (K.faults result.out) ≡ self.keeper.sink }
        ensures kept { spec.IsCluster self.keeper }
    {
        let Cluster { keeper, placer } = self;
        drop(placer);
        keeper.into_parts()
    }
}
