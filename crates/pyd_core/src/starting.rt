//! A run before its first event.
ghost use Rattle.std.specs.Prelude.{◌≡◌, ◌≤◌, [], ◌*◌, suc, IfOk, length, vec_capacity};
ghost use Rattle.pyd_runs.specs.Graphs.{end_at};
ghost use Rattle.pyd_runs.specs.Laws.{IsRunnable};
ghost use Rattle.pyd_core.specs.Cores.{IsCore, IsFew, plan_of};
ghost use Rattle.pyd_core.specs.Log.{IsCounted};
ghost use Rattle.pyd_core.specs.Starting.{HasFirst};

use crate::keeper::Core;
use crate::log::Log;
use pyd_board::Setup;
use pyd_desk::{Desk, Line};
use pyd_ir::Node;
use pyd_scope::Program;
use pyd_translate::block_order_law;
use pyd_value::{End, NoMemory};
use std::alloc::Global;

impl Core {
    /// The nodes of a script, none of which is settled, with no event and room for all losses.
    pub fn start(alloc: Global, program: Program, setup: Setup) -> Result<Core, NoMemory>
        requires runnable { IsRunnable (record { file = program.file; setup = setup }) }
        requires few { IsFew setup }
        ensures core { IfOk result (λ core. IsCore core) }
        ensures plan { IfOk result (λ core. plan_of core
            ≡ record { file = program.file; setup = setup }) }
        ensures journal { IfOk result (λ core. core.log.journal.items ≡ []) }
    {
        block_order_law();
        match first_parts(alloc, &program, &setup) {
            Ok(FirstParts { line, desk, log }) => {
                let end = end_of(line.nodes.as_slice());
                Ok(Core {
                    alloc,
                    program,
                    setup,
                    line,
                    desk,
                    log,
                    lost: 0,
                    end,
                })
            }
            Err(NoMemory) => {
                drop(program);
                drop(setup);
                Err(NoMemory)
            }
        }
    }
}

/// What a core keeps of nodes, of machines and of events, before any event.
#[derive(Drop)]
struct FirstParts {
    line: Line,
    desk: Desk,
    log: Log,
}

/// The parts of a core before any event.
fn first_parts(alloc: Global, program: &Program, setup: &Setup) -> Result<FirstParts, NoMemory>
    requires { IsFew setup.now }
    ensures { IfOk result (λ parts. HasFirst program.now setup.now parts) }
{
    let log = Log::start(alloc, seat_count(setup), setup.losses.len())?;
    let line = Line::start(alloc, program)?;
    let desk = Desk::start(alloc, line.nodes.as_slice(), setup.machines as usize)?;
    Ok(FirstParts { line, desk, log })
}

/// How many seats there are: the driver's and those of the workers.
fn seat_count(setup: &Setup) -> usize
    requires { IsFew setup.now }
    ensures { result ≡ suc (setup.now.machines * setup.now.workers) }
{
    setup.machines as usize * setup.workers as usize + 1
}

/// How a run with this chain has ended, if it has.
pub(crate) fn end_of(chain: &[Node]) -> Option<End>
    ensures { result ≡ end_at chain.now }
{
    if chain.is_empty() {
        Some(End::Finished)
    } else {
        None
    }
}
