//! The nodes of a run in program order.
ghost use Rattle.std.specs.Prelude.{◌≡◌, ◌<◌, ◌≤◌, ◌+◌, ◌++◌, drop, length, take, vec_len, vec_capacity};
ghost use Rattle.pyd_desk.specs.Lines.{chain_of, past_of};

use pyd_ir::Node;

/// The nodes, those that are settled first.
#[derive(Drop)]
pub struct Line {
    pub nodes: Vec<Node>,
    pub settled: usize,
}

impl Line {
    /// The settled nodes that weren't trimmed, in program order.
    pub fn past(&self) -> &[Node]
        requires { self.now.settled ≤ length self.now.nodes.items }
        ensures { result.now ≡ past_of self.now }
    {
        &self.nodes[..self.settled]
    }

    /// The nodes that aren't settled, in program order.
    pub fn chain(&self) -> &[Node]
        requires { self.now.settled ≤ length self.now.nodes.items }
        ensures { result.now ≡ chain_of self.now }
    {
        &self.nodes[self.settled..]
    }

    /// The head of the chain is settled and stays.
    #[tactic(auto, using(crate::proofs::Lined::passed_past, crate::proofs::Lined::passed_chain))]
    pub(crate) fn pass(&mut self)
        requires { self.old.settled < length self.old.nodes.items }
        ensures past { past_of self.new ≡ past_of self.old ++ take 1 (chain_of self.old) }
        ensures chain { chain_of self.new ≡ drop 1 (chain_of self.old) }
        ensures nodes { self.new.nodes ≡ self.old.nodes }
        ensures within { self.new.settled ≤ length self.new.nodes.items }
    {
        self.settled += 1;
    }

    /// The head of the chain is settled and goes.
    pub(crate) fn let_pass(&mut self)
        requires { self.old.settled < length self.old.nodes.items }
        ensures past { past_of self.new ≡ past_of self.old }
        ensures chain { chain_of self.new ≡ drop 1 (chain_of self.old) }
        ensures within { self.new.settled ≤ length self.new.nodes.items }
    {
        drop(self.nodes.remove(self.settled));
    }

    /// Nodes take the place of those of the chain from a place on. There is room for them.
    #[tactic(auto, using(crate::proofs::Lined::spliced_chain))]
    pub(crate) fn splice(&mut self, at: usize, tail: Vec<Node>)
        requires place { self.old.settled + at ≤ length self.old.nodes.items }
        requires room { self.old.settled + at + vec_len tail ≤ vec_capacity self.old.nodes }
        ensures past { past_of self.new ≡ past_of self.old }
        ensures chain { chain_of self.new ≡ take at (chain_of self.old) ++ tail.items }
        ensures within { self.new.settled ≤ length self.new.nodes.items }
    {
        self.nodes.truncate(self.settled + at);
        append_reserved(&mut self.nodes, tail);
    }
}

/// Puts nodes at the end, for which there is room.
fn append_reserved(nodes: &mut Vec<Node>, tail: Vec<Node>)
    requires { vec_len nodes.old + vec_len tail ≤ vec_capacity nodes.old }
    ensures { nodes.new.items ≡ nodes.old.items ++ tail.items }
{
    let mut tail = tail;
    match nodes.append(&mut tail) {
        Ok(()) => {}
        Err(_) => unreachable!(),
    }
}
