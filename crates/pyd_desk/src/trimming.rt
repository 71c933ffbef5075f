//! A past node goes.
ghost use Rattle.std.specs.Prelude.{◌≡◌, ◌≢◌, ◌<◌, ◌≤◌, ◌+◌, ◌++◌, ℕ, All, Some, None, drop, length, set, take};
ghost use Rattle.std.specs.List.{slice_get};
ghost use Rattle.pyd_ir.specs.declared.node.Node.{Node};
ghost use Rattle.pyd_desk.specs.Desks.{mark_at, outcome_in};
ghost use Rattle.pyd_desk.specs.Lines.{chain_of, past_of};
ghost use Rattle.pyd_desk.specs.States.{HasSameMachines};
ghost use Rattle.pyd_desk.specs.Trimming as spec;

use crate::desk::{Desk, Mark, PortKind};
use crate::line::Line;
use pyd_store::{Store, a_store_is_a_map};

impl Desk {
    /// The node at a place of the past, counted from 0, goes, with its record in a store, and so do
    /// the tickets of nodes that are no longer ready. Takes no memory.
    pub fn forget(&mut self, line: &mut Line, at: usize)
        requires place { at < line.old.settled }
        requires nodes { line.old.settled ≤ length line.old.nodes.items }
        requires numbered { All (λ n. n.id < length self.old.marks.items) line.old.nodes.items }
        ensures trimmed { spec.IsTrimmed line.old self.old at line.new self.new }
        ensures within { line.new.settled ≤ length line.new.nodes.items }
        ensures machines { HasSameMachines self.old self.new }
    {
        let id = line.past_number(at);
        line.take_out(at);
        self.forget_record(id);
        self.drop_tickets(line);
    }

    /// A node has no record in a store and no ticket any more.
    fn forget_record(&mut self, node: u64)
        requires { node < length self.old.marks.items }
        ensures { spec.HasForgotten node self.old self.new }
    {
        let machine = forget_mark(&mut self.marks, node);
        remove_from(&mut self.stores, machine, node);
    }
}

impl Line {
    /// The number of the node at a place of the past.
    fn past_number(&self, at: usize) -> u64
        requires place { at < self.now.settled }
        requires nodes { self.now.settled ≤ length self.now.nodes.items }
        ensures number { (n : Node) → slice_get (past_of self.now) at ≡ Some n → result ≡ n.id }
        ensures among { (count : ℕ) → All (λ n. n.id < count) self.now.nodes.items
            → result < count }
    {
        self.nodes[at].id
    }

    /// The node at a place of the past goes.
    #[tactic(auto, using(crate::proofs::Left::left_past, crate::proofs::Left::left_chain))]
    fn take_out(&mut self, at: usize)
        requires place { at < self.old.settled }
        requires nodes { self.old.settled ≤ length self.old.nodes.items }
        ensures past { past_of self.new
            ≡ take at (past_of self.old) ++ drop (at + 1) (past_of self.old) }
        ensures chain { chain_of self.new ≡ chain_of self.old }
        ensures nodes { self.new.nodes.items
            ≡ take at self.old.nodes.items ++ drop (at + 1) self.old.nodes.items }
        ensures settled { self.new.settled ≤ length self.new.nodes.items }
    {
        self.settled -= 1;
        drop(self.nodes.remove(at));
    }
}

/// A mark forgets its ticket, its ports and the machine that has its record, which is the answer.
fn forget_mark(marks: &mut Vec<Mark>, node: u64) -> Option<u32>
    requires { node < length marks.old.items }
    ensures marks { marks.new.items
        ≡ set marks.old.items node (spec.forgotten (mark_at marks.old.items node)) }
    ensures machine { result ≡ (mark_at marks.old.items node).machine }
{
    let mark = &mut marks[node as usize];
    mark.ticket = None;
    mark.ports = PortKind::One;
    mark.machine.take()
}

/// The outcome of a node goes, in the store of a machine.
fn remove_from(stores: &mut Vec<Store>, machine: Option<u32>, node: u64)
    ensures kept { (m k : ℕ) → k ≢ node
        → outcome_in stores.new.items m k ≡ outcome_in stores.old.items m k }
    ensures removed { (m : ℕ) → machine ≡ Some m
        → outcome_in stores.new.items m node ≡ None }
    ensures count { length stores.new.items ≡ length stores.old.items }
{
    if let Some(machine) = machine {
        remove_at(stores, machine, node);
    }
}

/// The same of a machine.
#[tactic(auto, using(crate::proofs::Removed::removed_there, crate::proofs::Removed::removed_apart, crate::proofs::Storing::past_store))]
fn remove_at(stores: &mut Vec<Store>, machine: u32, node: u64)
    ensures kept { (m k : ℕ) → k ≢ node
        → outcome_in stores.new.items m k ≡ outcome_in stores.old.items m k }
    ensures removed { outcome_in stores.new.items machine node ≡ None }
    ensures count { length stores.new.items ≡ length stores.old.items }
{
    a_store_is_a_map();
    if (machine as usize) < stores.len() {
        stores[machine as usize].remove(node);
    }
}
