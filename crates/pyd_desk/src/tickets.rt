//! Tickets that die.
ghost use Rattle.std.specs.Prelude.{◌≡◌, ◌<◌, ◌≤◌, true, All, if◌then◌else◌, length, set};
ghost use Rattle.pyd_desk.specs.Desks.{mark_at};
ghost use Rattle.pyd_desk.specs.Lines.{chain_of};
ghost use Rattle.pyd_desk.specs.Reading.{given_of};
ghost use Rattle.pyd_desk.specs.Tickets as spec;

use crate::desk::Desk;
use crate::finding::heads;
use crate::line::Line;
use crate::marks::drop_ticket;
use pyd_ir::Node;

impl Desk {
    /// The tickets of nodes of the line that aren't ready die.
    pub(crate) fn drop_tickets(&mut self, line: &Line)
        requires line { line.now.settled ≤ length line.now.nodes.items }
        requires numbered { All (λ n. n.id < length self.old.marks.items) line.now.nodes.items }
        ensures { spec.IsRidOf (chain_of line.now) line.now.nodes.items self.old self.new }
    {
        for node in &line.nodes {
            self.check_ticket(node, line.chain());
        }
    }

    /// The ticket of a node that isn't ready, before this chain, dies.
    fn check_ticket(&mut self, node: &Node, chain: &[Node])
        requires { node.now.id < length self.old.marks.items }
        ensures marks { self.new.marks.items
            ≡ (if spec.is_ready_in chain.now (given_of self.old) node.now
            then self.old.marks.items
            else set self.old.marks.items node.now.id
            (spec.live_mark true (mark_at self.old.marks.items node.now.id))) }
        ensures driver { self.new.driver ≡ self.old.driver }
        ensures stores { self.new.stores ≡ self.old.stores }
        ensures alive { self.new.alive ≡ self.old.alive }
        ensures undone { self.new.undone ≡ self.old.undone }
    {
        if !self.is_ready(node, heads(node.id, chain)) {
            drop_ticket(&mut self.marks, node.id);
        }
    }
}
