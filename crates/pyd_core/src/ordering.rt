//! The node that is due in head order.
ghost use Rattle.std.specs.Prelude.{◌≡◌, ◌++◌, None, IfOk, OnOk};
ghost use Rattle.std.specs.List.{flat_map};
ghost use Rattle.pyd_lineage.specs.Lineage.{named_by};
ghost use Rattle.pyd_runs.specs.HeadOrder as runs;
ghost use Rattle.pyd_core.specs.Cores.{IsCore, state_of};
ghost use Rattle.pyd_core.specs.Ordering as spec;

use crate::keeper::Core;
use pyd_ir::{Arg, Node, Work};
use pyd_lineage::first_awaited;
use pyd_runs::run_law;
use pyd_value::NoMemory;
use std::alloc::Global;

impl Core {
    /// The number of the node that is due: of the first past one that the head waits for, else of the
    /// head.
    pub fn node_due(&self) -> Result<u64, NoMemory>
        requires core { IsCore self.now }
        requires goes_on { (state_of self.now).graph.end ≡ None }
        ensures { IfOk result (λ number. spec.IsNumberDue (state_of self.now) number) }
    {
        run_law();
        let known = self.recorded(self.alloc)?;
        let wanted = wanted_by(self.alloc, &self.line.head().work)?;
        let past = self.line.past();
        let place = first_awaited(self.alloc, past, wanted.as_slice(), known.as_slice())?;
        Ok(number_at(past, place, self.line.head().id))
    }
}

/// The numbers of the nodes that a head waits for, as its arguments name them.
fn wanted_by(alloc: Global, work: &Work) -> Result<Vec<u64>, NoMemory>
    ensures { IfOk result (λ numbers. numbers.items
        ≡ flat_map named_by (runs.waited_for work.now)) }
{
    match work {
        Work::Op { args, .. } => named(alloc, args.as_slice()),
        Work::Read { arg, .. } => named_alone(alloc, arg),
        Work::Call { args, .. } => named(alloc, args.as_slice()),
        Work::Stop(_) => Ok(Vec::new(alloc)),
        Work::Print(args) => named(alloc, args.as_slice()),
        Work::Run { args, .. } => named(alloc, args.as_slice()),
        Work::Cond { test, .. } => named_alone(alloc, test),
        Work::While { test, .. } => named_alone(alloc, test),
        Work::For { over, .. } => named_alone(alloc, over),
        Work::Pick { test, .. } => named_alone(alloc, test),
        Work::Enter { .. } => Ok(Vec::new(alloc)),
    }
}

/// The numbers of the nodes that arguments name.
fn named(alloc: Global, args: &[Arg]) -> Result<Vec<u64>, NoMemory>
    ensures { IfOk result (λ numbers. numbers.items ≡ flat_map named_by args.now) }
{
    let mut numbers = Vec::new(alloc);
    for arg in args {
        add_named(&mut numbers, arg)?;
    }
    Ok(numbers)
}

/// The number of the node that an argument names, if it does.
#[tactic(auto, using(crate::proofs::Awaited::named_alone))]
fn named_alone(alloc: Global, arg: &Arg) -> Result<Vec<u64>, NoMemory>
    ensures { IfOk result (λ numbers. numbers.items ≡ flat_map named_by (spec.alone arg.now)) }
{
    let mut numbers = Vec::new(alloc);
    add_named(&mut numbers, arg)?;
    Ok(numbers)
}

fn add_named(numbers: &mut Vec<u64>, arg: &Arg) -> Result<(), NoMemory>
    ensures { OnOk result (numbers.new.items ≡ numbers.old.items ++ named_by arg.now) }
{
    match arg {
        Arg::From(at) => numbers.push(at.node)?,
        Arg::Slot(at) => numbers.push(at.node)?,
        Arg::Known(_) | Arg::Unbound => {}
    }
    Ok(())
}

/// The number of the node at a place, if there is one, else another.
fn number_at(nodes: &[Node], place: Option<usize>, other: u64) -> u64
    ensures { result ≡ spec.number_at nodes.now place other }
{
    match place {
        Some(place) => match nodes.get(place) {
            Some(node) => node.id,
            None => other,
        },
        None => other,
    }
}
