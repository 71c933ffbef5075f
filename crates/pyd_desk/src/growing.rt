//! The graph grows: a piece takes the place of a composite.
ghost use Rattle.std.specs.Prelude.{◌≡◌, ◌<◌, ◌≤◌, ◌+◌, OnOk, OnErr, Some, drop, length, vec_capacity};
ghost use Rattle.std.specs.List.{slice_get};
ghost use Rattle.pyd_ir.specs.declared.node.Node.{Node};
ghost use Rattle.pyd_desk.specs.Growing as spec;
ghost use Rattle.pyd_desk.specs.Lines.{chain_of};
ghost use Rattle.pyd_desk.specs.States.{HasSameMachines, IsSameDesk, IsSameLine};

use crate::desk::Desk;
use crate::line::Line;
use crate::replacing::replacement;
use pyd_ir::Node;
use pyd_refine::piece_order_law;
use pyd_translate::Piece;
use pyd_value::NoMemory;
use std::alloc::Global;

impl Desk {
    /// A piece takes the place of the node at a place of the chain, counted from 0, and later nodes
    /// name what stands for its value and its slots. New nodes have marks and places for the
    /// driver's records. All memory is taken first: where there is none, nothing changes.
    pub fn grow(
        &mut self,
        alloc: Global,
        line: &mut Line,
        at: usize,
        piece: &Piece,
    ) -> Result<(), NoMemory>
        requires { line.old.settled + at < length line.old.nodes.items }
        ensures refined { OnOk result
            (spec.IsRefined line.old self.old at piece.now line.new self.new) }
        ensures within { OnOk result (line.new.settled ≤ length line.new.nodes.items) }
        ensures machines { HasSameMachines self.old self.new }
        ensures line { OnErr result (IsSameLine line.old line.new) }
        ensures desk { OnErr result (IsSameDesk self.old self.new) }
    {
        piece_order_law();
        let id = line.number_at(at);
        let tail = replacement(alloc, id, piece, line.behind(at))?;
        line.make_room(at, tail.len())?;
        self.make_room(piece.next as usize)?;
        self.add_nodes(id, piece.next as usize, piece.nodes.as_slice());
        line.splice(at, tail);
        Ok(())
    }
}

impl Line {
    /// The number of the node at a place of the chain.
    fn number_at(&self, at: usize) -> u64
        requires { self.now.settled + at < length self.now.nodes.items }
        ensures { (n : Node) → slice_get (chain_of self.now) at ≡ Some n → result ≡ n.id }
    {
        self.nodes[self.settled + at].id
    }

    /// The nodes behind a place of the chain.
    fn behind(&self, at: usize) -> &[Node]
        requires { self.now.settled + at < length self.now.nodes.items }
        ensures { result.now ≡ drop (at + 1) (chain_of self.now) }
    {
        &self.nodes[self.settled + at + 1..]
    }

    /// Makes room for so many nodes in the place of those of the chain from a place on.
    fn make_room(&mut self, at: usize, count: usize) -> Result<(), NoMemory>
        requires { self.old.settled + at ≤ length self.old.nodes.items }
        ensures room { OnOk result
            (self.old.settled + at + count ≤ vec_capacity self.new.nodes) }
        ensures same { IsSameLine self.old self.new }
    {
        let gone = self.nodes.len() - self.settled - at;
        self.nodes.reserve(count.saturating_sub(gone))?;
        Ok(())
    }
}
