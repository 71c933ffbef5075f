//! The values of arguments, as far as there are records.
ghost use Rattle.std.specs.Prelude.{◌≡◌, IfOk, is_some};
ghost use Rattle.std.specs.Option.{option_copied};
ghost use Rattle.pyd_ops.specs.Sequence.{item_at as spec_item_at};
ghost use Rattle.pyd_ir.specs.Inputs as inputs;
ghost use Rattle.pyd_desk.specs.Desks.{mark_at};
ghost use Rattle.pyd_desk.specs.Reading as spec;
ghost use Rattle.pyd_desk.specs.Reading.{given_of};

use crate::desk::{Desk, PortKind};
use crate::stores::fetch_from;
use pyd_ir::{Arg, Ref, Task, Work};
use pyd_ops::item_at;
use pyd_value::{List, NoMemory, Outcome, Value, try_copy};
use std::alloc::Global;

impl Desk {
    /// The outcome of a node, if it has a record: the driver's, or one in a store.
    pub fn outcome(&self, node: u64) -> Option<&Outcome>
        ensures { option_copied result ≡ spec.outcome_at self.now node }
    {
        if let Some(Some(ran)) = self.driver.get(node as usize) {
            return Some(&ran.get().outcome);
        }
        self.stored(node)
    }

    /// The outcome of a node in the store of a machine.
    fn stored(&self, node: u64) -> Option<&Outcome>
        ensures { option_copied result ≡ spec.stored_at self.now node }
    {
        let machine = self.machine(node)?;
        fetch_from(&self.stores, machine, node)
    }

    /// The machine in whose store the record of a node may be.
    fn machine(&self, node: u64) -> Option<u32>
        ensures { result ≡ (mark_at self.now.marks.items node).machine }
    {
        match self.marks.get(node as usize) {
            Some(mark) => mark.machine,
            None => None,
        }
    }

    /// What stands at the ports of a node that gives a value.
    fn kind(&self, node: u64) -> PortKind
        ensures { result ≡ spec.kind_at self.now node }
    {
        match self.marks.get(node as usize) {
            Some(mark) => mark.ports,
            None => PortKind::One,
        }
    }

    /// The value at a port.
    fn port(&self, alloc: Global, at: Ref) -> Result<Option<Value>, NoMemory>
        ensures { IfOk result (λ value. value ≡ given_of self.now at.node at.port) }
    {
        match self.outcome(at.node) {
            Some(Outcome::Ok(value)) => port_value(alloc, self.kind(at.node), value, at.port),
            Some(Outcome::Fault(_)) => Ok(None),
            None => Ok(None),
        }
    }

    /// Whether there is a value at a port.
    fn has_port(&self, at: Ref) -> bool
        ensures { result ≡ is_some (given_of self.now at.node at.port) }
    {
        match self.outcome(at.node) {
            Some(Outcome::Ok(value)) => has_port_value(self.kind(at.node), value, at.port),
            Some(Outcome::Fault(_)) => false,
            None => false,
        }
    }

    /// The value of an argument, if it has one, which both share. An error is want of memory.
    pub fn value(&self, alloc: Global, arg: &Arg) -> Result<Option<Value>, NoMemory>
        ensures { IfOk result (λ value. value ≡ inputs.value_of (given_of self.now) arg.now) }
    {
        match arg {
            Arg::Known(value) => Ok(Some(try_copy(alloc, value)?)),
            Arg::From(at) => self.port(alloc, *at),
            Arg::Slot(at) => self.port(alloc, *at),
            Arg::Unbound => Ok(None),
        }
    }

    /// Whether an argument has a value. Takes no memory.
    pub fn has_value(&self, arg: &Arg) -> bool
        ensures { result ≡ inputs.has_value (given_of self.now) arg.now }
    {
        match arg {
            Arg::Known(_) => true,
            Arg::From(at) => self.has_port(*at),
            Arg::Slot(at) => self.has_port(*at),
            Arg::Unbound => false,
        }
    }

    /// The values of all arguments, or none where one has none. An error is want of memory.
    pub fn values(&self, alloc: Global, args: &[Arg]) -> Result<Option<List<Value>>, NoMemory>
        ensures { IfOk result (λ values. values ≡ inputs.values_of (given_of self.now) args.now) }
    {
        let mut values = List::new(alloc);
        for arg in args {
            match self.value(alloc, arg)? {
                Some(value) => values.add(value)?,
                None => return Ok(None),
            }
        }
        Ok(Some(values))
    }

    /// Whether all arguments have values. Takes no memory.
    pub fn have_values(&self, args: &[Arg]) -> bool
        ensures { result ≡ inputs.have_values (given_of self.now) args.now }
    {
        for arg in args {
            if !self.has_value(arg) {
                return false;
            }
        }
        true
    }

    /// Whether what is read has a value, or is surely unbound.
    fn may_be_read(&self, arg: &Arg) -> bool
        ensures { result ≡ inputs.may_be_read (given_of self.now) arg.now }
    {
        match arg {
            Arg::Unbound => true,
            Arg::Known(_) | Arg::From(_) | Arg::Slot(_) => self.has_value(arg),
        }
    }

    /// Whether what a node waits for is there. Takes no memory.
    pub(crate) fn has_inputs(&self, work: &Work) -> bool
        ensures { result ≡ inputs.has_inputs (given_of self.now) work.now }
    {
        match work {
            Work::Op { args, .. } => self.have_values(args.as_slice()),
            Work::Read { arg, .. } => self.may_be_read(arg),
            Work::Call { args, .. } => self.have_values(args.as_slice()),
            Work::Stop(_) => true,
            Work::Print(args) => self.have_values(args.as_slice()),
            Work::Run { args, .. } => self.have_values(args.as_slice()),
            Work::Cond { test, .. } => self.has_value(test),
            Work::While { test, .. } => self.has_value(test),
            Work::For { over, .. } => self.has_value(over),
            Work::Pick { test, .. } => self.has_value(test),
            Work::Enter { .. } => true,
        }
    }

    /// The task of a node with the values of its arguments, where it has a job.
    pub(crate) fn task(&self, alloc: Global, work: &Work) -> Result<Option<Task>, NoMemory>
        ensures { IfOk result (λ task. task ≡ inputs.task_of (given_of self.now) work.now) }
    {
        match work {
            Work::Op { op, args } => match self.values(alloc, args.as_slice())? {
                Some(args) => Ok(Some(Task::Op { op: *op, args })),
                None => Ok(None),
            },
            Work::Read { arg, kind } => Ok(Some(Task::Read {
                value: self.value(alloc, arg)?,
                kind: *kind,
            })),
            Work::Call { func, args } => match self.values(alloc, args.as_slice())? {
                Some(args) => Ok(Some(Task::Call { func: *func, args })),
                None => Ok(None),
            },
            Work::Run { func, args } => match self.values(alloc, args.as_slice())? {
                Some(args) => Ok(Some(Task::Run { func: *func, args })),
                None => Ok(None),
            },
            Work::Stop(_)
            | Work::Print(_)
            | Work::Cond { .. }
            | Work::While { .. }
            | Work::For { .. }
            | Work::Pick { .. }
            | Work::Enter { .. } => Ok(None),
        }
    }
}

/// What stands at a port of a node that gave a value.
fn port_value(
    alloc: Global,
    kind: PortKind,
    value: &Value,
    port: u32,
) -> Result<Option<Value>, NoMemory>
    ensures { IfOk result (λ found. found ≡ spec.ports_by kind value.now port) }
{
    match kind {
        PortKind::One => {
            if port == 0 {
                Ok(Some(try_copy(alloc, value)?))
            } else {
                Ok(None)
            }
        }
        PortKind::Items => item_at(alloc, value, port as u64),
        PortKind::Nothing => Ok(None),
    }
}

/// Whether something stands at a port of a node that gave a value.
fn has_port_value(kind: PortKind, value: &Value, port: u32) -> bool
    ensures { result ≡ is_some (spec.ports_by kind value.now port) }
{
    match kind {
        PortKind::One => port == 0,
        PortKind::Items => has_item(value, port as usize),
        PortKind::Nothing => false,
    }
}

/// Whether a value has an item at a place.
#[tactic(auto, using(crate::proofs::Ported::text_item, crate::proofs::Ported::tuple_item))]
fn has_item(value: &Value, at: usize) -> bool
    ensures { result ≡ is_some (spec_item_at value.now at) }
{
    match value {
        Value::Text(text) => at < text.count(),
        Value::Tuple(members) => at < members.len(),
        Value::Int(_) | Value::Bool(_) | Value::None => false,
    }
}
