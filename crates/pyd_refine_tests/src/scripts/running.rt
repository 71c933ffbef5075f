//! Runs in head order: the head of the list is settled, or its piece takes its place.
ghost use Rattle.std.specs.Prelude.{◌≡◌, false, length, slice_get, IfOk, IsTrue};
ghost use Rattle.pyd_eval.specs.Whole.{IsCalled};
ghost use Rattle.pyd_ir.specs.Arguments as spec;
ghost use Rattle.pyd_ir.specs.Meaning.{is_call};

use crate::replacing::replaced;
use pyd_effect::{Settled, settle_head};
use pyd_eval::{Whole, call};
use pyd_ir::{Arg, Job, Node, OpCode, Ref, Task, Work, run_op};
use pyd_meaning::{Limits, Ran};
use pyd_names::functions;
use pyd_refine::refine;
use pyd_scope::Program;
use pyd_translate::{Piece, unfold_script};
use pyd_tree::Func;
use pyd_value::{End, Fault, Limit, List, NoMemory, Outcome, Text, Value, try_copy};
use std::alloc::Global;
use std::collections::BTreeMap;
use std::test::Fail;

/// More nodes than are settled or refined in any run here.
const MOST: usize = 1_000_000;

/// A run of a program.
#[derive(Drop)]
struct Run<'a> {
    alloc: Global,
    program: &'a Program,
    limits: Limits,
    nodes: List<Node>,
    /// The place of the head: the nodes before it are settled.
    at: usize,
    /// The first number that no node has.
    next: u64,
    /// The values at the ports of the nodes that are settled, by their numbers.
    given: BTreeMap<u64, List<Value>>,
    lines: List<Text>,
}

/// How a script ends, and the lines that it prints, by its nodes.
pub(super) fn run_nodes(alloc: Global, program: &Program, limits: Limits) -> Result<Whole, Fail> {
    let mut run = Run::new(alloc, program, limits)?;
    for _ in 0..MOST {
        if let Some(end) = run.step()? {
            return Ok(Whole {
                end,
                lines: run.lines,
            });
        }
    }
    Err(Fail::new("the run has no end"))
}

impl<'a> Run<'a> {
    fn new(alloc: Global, program: &'a Program, limits: Limits) -> Result<Run<'a>, NoMemory> {
        let script = unfold_script(alloc, program)?;
        Ok(Run {
            alloc,
            program,
            limits,
            nodes: script.nodes,
            at: 0,
            next: script.next,
            given: BTreeMap::new(alloc),
            lines: List::new(alloc),
        })
    }

    /// Refines or settles the head: the end of the run, if it has ended.
    fn step(&mut self) -> Result<Option<End>, Fail> {
        let nodes = self.nodes.try_clone()?;
        let Some(head) = nodes.get(self.at) else {
            return Ok(Some(End::Finished));
        };
        if is_composite(&head.work) {
            self.refine(head)?;
            Ok(None)
        } else {
            self.at = self.at.saturating_add(1);
            self.settle(head)
        }
    }

    fn refine(&mut self, head: &Node) -> Result<(), NoMemory> {
        let control = match control_of(&head.work) {
            Some(arg) => self.value(arg)?,
            None => None,
        };
        let made = refine(
            self.alloc,
            self.program,
            self.limits,
            head,
            control.as_ref(),
            self.next,
        );
        drop(control);
        let piece = made?;
        let done = self.take(head.id, &piece);
        drop(piece);
        done
    }

    fn take(&mut self, id: u64, piece: &Piece) -> Result<(), NoMemory> {
        let left = self.nodes.as_slice().get(self.at..).unwrap_or(&[]);
        self.nodes = replaced(self.alloc, left, id, piece)?;
        self.at = 0;
        self.next = piece.next;
        Ok(())
    }

    fn settle(&mut self, head: &Node) -> Result<Option<End>, Fail>
        requires { spec.is_composite head.now.work ≡ false }
    {
        let own = self.own(head)?;
        let end = self.settle_by(head, &own);
        drop(own);
        end
    }

    /// Settles a leaf by what its own job gave, if it has one.
    fn settle_by(&mut self, head: &Node, own: &Option<Ran>) -> Result<Option<End>, Fail>
        requires { spec.is_composite head.now.work ≡ false }
    {
        let inputs = self.inputs(arguments_of(&head.work))?;
        match settle_head(self.alloc, head, inputs.as_slice(), own.as_ref())? {
            Settled::Passed(lines) => {
                self.print(lines.as_slice())?;
                self.keep(head, own)?;
                Ok(None)
            }
            Settled::Ended(lines, end) => {
                self.print(lines.as_slice())?;
                Ok(Some(end))
            }
            Settled::Waits(_) => Err(Fail::new("the head waits")),
        }
    }

    fn print(&mut self, lines: &[Text]) -> Result<(), NoMemory> {
        for line in lines {
            self.lines.add(line.try_clone()?)?;
        }
        Ok(())
    }

    /// Keeps what a node has at its ports: what it gave, the members of what it unpacked, or the
    /// `None` of a print.
    fn keep(&mut self, node: &Node, own: &Option<Ran>) -> Result<(), Fail> {
        let ports = match own {
            Some(ran) => self.ports(&node.work, &ran.outcome)?,
            None => self.one(&Value::None)?,
        };
        self.given.insert(node.id, ports)?;
        Ok(())
    }

    fn ports(&self, work: &Work, outcome: &Outcome) -> Result<List<Value>, Fail> {
        match (work, outcome) {
            (
                Work::Op {
                    op: OpCode::Unpack(_),
                    ..
                },
                Outcome::Ok(Value::Tuple(members)),
            ) => Ok(members.try_clone()?),
            (_, Outcome::Ok(value)) => Ok(self.one(value)?),
            (_, Outcome::Fault(_)) => Err(Fail::new("a fault has passed")),
        }
    }

    fn one(&self, value: &Value) -> Result<List<Value>, NoMemory> {
        let mut values = List::new(self.alloc);
        values.add(try_copy(self.alloc, value)?)?;
        Ok(values)
    }

    /// What the job of a node gives, if it has one.
    fn own(&self, node: &Node) -> Result<Option<Ran>, Fail> {
        match &node.work {
            Work::Op { op, args } => {
                let args = self.values(args.as_slice())?;
                Ok(Some(self.done(node, Task::Op { op: *op, args })?))
            }
            Work::Read { arg, kind } => {
                let value = self.value(arg)?;
                Ok(Some(self.done(node, Task::Read { value, kind: *kind })?))
            }
            Work::Call { func, args } | Work::Run { func, args } => {
                let args = self.values(args.as_slice())?;
                Ok(Some(self.called(node, *func, args)?))
            }
            _ => Ok(None),
        }
    }

    fn done(&self, node: &Node, task: Task) -> Result<Ran, Fail>
        requires { is_call task ≡ false }
    {
        let job = Job {
            node: node.id,
            attempt: 1,
            line: node.line,
            depth: node.depth,
            task,
        };
        match run_op(self.alloc, &self.program.file, self.limits, job) {
            Ok(done) => Ok(done.ran),
            Err((job, NoMemory)) => {
                drop(job);
                Err(Fail::new("memory"))
            }
        }
    }

    fn called(&self, node: &Node, func: u32, args: List<Value>) -> Result<Ran, Fail> {
        if self.limits.depth <= node.depth {
            return Ok(Ran {
                outcome: Outcome::Fault(Fault::Limit(Limit::Depth, node.line)),
                lines: List::new(self.alloc),
            });
        }
        if !is_called(self.alloc, self.program, func, args.len())? {
            return Err(Fail::new("a call of no function"));
        }
        let depth = node.depth + 1;
        match call(self.alloc, self.program, self.limits, func, args, depth) {
            Ok(ran) => Ok(ran),
            Err((args, NoMemory)) => {
                drop(args);
                Err(Fail::new("memory"))
            }
        }
    }

    fn inputs(&self, args: &[Arg]) -> Result<List<Option<Value>>, NoMemory> {
        let mut inputs = List::new(self.alloc);
        for arg in args {
            inputs.add(self.value(arg)?)?;
        }
        Ok(inputs)
    }

    /// The values of arguments that all have one.
    fn values(&self, args: &[Arg]) -> Result<List<Value>, Fail> {
        let mut values = List::new(self.alloc);
        for arg in args {
            match self.value(arg)? {
                Some(value) => values.add(value)?,
                None => return Err(Fail::new("an argument without a value")),
            }
        }
        Ok(values)
    }

    fn value(&self, arg: &Arg) -> Result<Option<Value>, NoMemory> {
        let found = match arg {
            Arg::Known(value) => Some(value),
            Arg::From(at) | Arg::Slot(at) => self.port(*at),
            Arg::Unbound => None,
        };
        match found {
            Some(value) => Ok(Some(try_copy(self.alloc, value)?)),
            None => Ok(None),
        }
    }

    fn port(&self, at: Ref) -> Option<&Value> {
        match self.given.get(&at.node) {
            Some(values) => values.get(at.port as usize),
            None => None,
        }
    }
}

fn is_composite(work: &Work) -> bool
    ensures { result ≡ spec.is_composite work.now }
{
    match work {
        Work::Op { .. }
        | Work::Read { .. }
        | Work::Call { .. }
        | Work::Stop(_)
        | Work::Print(_)
        | Work::Run { .. } => false,
        Work::Cond { .. }
        | Work::While { .. }
        | Work::For { .. }
        | Work::Pick { .. }
        | Work::Enter { .. } => true,
    }
}

/// What a composite is chosen by.
fn control_of(work: &Work) -> Option<&Arg> {
    match work {
        Work::Cond { test, .. } | Work::While { test, .. } | Work::Pick { test, .. } => Some(test),
        Work::For { over, .. } => Some(over),
        _ => None,
    }
}

/// The arguments of a leaf.
fn arguments_of(work: &Work) -> &[Arg] {
    match work {
        Work::Op { args, .. } | Work::Call { args, .. } | Work::Run { args, .. } => args.as_slice(),
        Work::Print(args) => args.as_slice(),
        _ => &[],
    }
}

/// Whether a program has a function with this number that takes so many arguments.
fn is_called(alloc: Global, program: &Program, number: u32, count: usize) -> Result<bool, Fail>
    ensures { IfOk result (λ called. IsTrue called → IsCalled program.now.file number count) }
{
    let functions = functions(alloc, &program.file)?;
    if number == 0 {
        return Ok(false);
    }
    match nth(functions.as_slice(), number as usize - 1) {
        Some(func) => Ok(func.params.len() == count),
        None => Ok(false),
    }
}

/// The function at a place, counted from 0.
fn nth<'a>(functions: &[&'a Func], at: usize) -> Option<&'a Func>
    ensures { result ≡ slice_get functions.now at }
{
    functions.get(at).copied()
}
