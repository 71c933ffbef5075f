//! The jobs of nodes whose inputs have records.
ghost use Rattle.std.specs.Prelude.{◌≡◌, ◌≤◌, ◌&&◌, ◌||◌, IfOk, cond, None, option_map, is_some, length};
ghost use Rattle.std.specs.Option.{option_copied};
ghost use Rattle.pyd_ir.specs.Arguments as arguments;
ghost use Rattle.pyd_ir.specs.Inputs as inputs;
ghost use Rattle.pyd_runs.specs.Graphs.{Graph};
ghost use Rattle.pyd_runs.specs.Records as runs;
ghost use Rattle.pyd_desk.specs.Desks.{stores_of};
ghost use Rattle.pyd_desk.specs.Lines.{IsGraphOf};
ghost use Rattle.pyd_desk.specs.Reading.{given_of};

use crate::desk::Desk;
use crate::finding::{find, heads};
use crate::line::Line;
use crate::works::{has_job, is_pure};
use pyd_ir::{Job, Node};
use pyd_value::NoMemory;
use std::alloc::Global;

impl Desk {
    /// The job of the node of a number, as an attempt, where it is ready: it has a job, its inputs
    /// are there, and it is pure or the head of the chain. Its values share what the records have.
    /// An error is want of memory.
    pub fn ready(
        &self,
        alloc: Global,
        line: &Line,
        number: u64,
        attempt: u64,
    ) -> Result<Option<Job>, NoMemory>
        requires { line.now.settled ≤ length line.now.nodes.items }
        ensures { (g : Graph) → IsGraphOf line.now self.now g → IfOk result (λ job.
            job ≡ runs.ready g (stores_of self.now) number attempt) }
    {
        self.job_of(alloc, find(&line.nodes, number), line.chain(), attempt)
    }

    /// The job of a node, if there is one, before this chain.
    fn job_of(
        &self,
        alloc: Global,
        node: Option<&Node>,
        chain: &[Node],
        attempt: u64,
    ) -> Result<Option<Job>, NoMemory>
        ensures { IfOk result (λ job. job
            ≡ runs.job_by chain.now (given_of self.now) attempt (option_copied node.entry)) }
    {
        match node {
            Some(node) => self.job(alloc, node, heads(node.id, chain), attempt),
            None => Ok(None),
        }
    }

    /// The job of a node, where its inputs are there; an effect's only at the head of the chain.
    fn job(
        &self,
        alloc: Global,
        node: &Node,
        is_head: bool,
        attempt: u64,
    ) -> Result<Option<Job>, NoMemory>
        ensures { IfOk result (λ job. job ≡ option_map (runs.job_with node.now attempt)
            (cond (inputs.has_inputs (given_of self.now) node.now.work
            && (arguments.is_pure node.now.work || is_head))
            (inputs.task_of (given_of self.now) node.now.work) None)) }
    {
        if !self.may_be_done(node, is_head) {
            return Ok(None);
        }
        match self.task(alloc, &node.work)? {
            Some(task) => Ok(Some(Job {
                node: node.id,
                attempt,
                line: node.line,
                depth: node.depth,
                task,
            })),
            None => Ok(None),
        }
    }

    /// Whether the inputs of a node are there; an effect waits for the head of the chain.
    fn may_be_done(&self, node: &Node, is_head: bool) -> bool
        ensures { result ≡ (inputs.has_inputs (given_of self.now) node.now.work
            && (arguments.is_pure node.now.work || is_head)) }
    {
        self.has_inputs(&node.work) && (is_pure(&node.work) || is_head)
    }

    /// Whether a node of the line is ready, by whether it is the head of the chain. Takes no
    /// memory.
    pub fn is_ready(&self, node: &Node, is_head: bool) -> bool
        ensures { result ≡ is_some (cond (inputs.has_inputs (given_of self.now) node.now.work
            && (arguments.is_pure node.now.work || is_head))
            (inputs.task_of (given_of self.now) node.now.work) None) }
    {
        has_job(&node.work) && self.may_be_done(node, is_head)
    }
}
