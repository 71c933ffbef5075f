//! Past nodes that nobody reaches.
ghost use Rattle.std.specs.Prelude.{◌≡◌, ◌<◌, ◌+◌, ℕ, All, None, IfOk, drop, length};
ghost use Rattle.std.specs.List.{slice_get};
ghost use Rattle.pyd_board.specs.declared.event.Act.TheVariants.{Trim};
ghost use Rattle.pyd_lineage.specs.Lineage.{AreUnreached, IsInOrder};
ghost use Rattle.pyd_runs.specs.Enabled.{CanTrim, IsLoss, IsQuiet};
ghost use Rattle.pyd_runs.specs.Plans.{IsSeat};
ghost use Rattle.pyd_runs.specs.Records.{node_at};
ghost use Rattle.pyd_desk.specs.Lines.{chain_of, past_of};
ghost use Rattle.pyd_core.specs.Cores.{HasRoom, IsCore, plan_of, state_of};
ghost use Rattle.pyd_core.specs.Steps.{ComesBy, Makes, UsesRoom};
ghost use Rattle.pyd_core.specs.Trimmings as spec;

use crate::keeper::Core;
use pyd_board::Act;
use pyd_desk::Line;
use pyd_ir::Node;
use pyd_lineage::trim_among;
use pyd_runs::{
    beginning_law, in_order_law, journal_law, reach_law, run_law, settle_law, step_law, trimmed_law,
};
use pyd_value::{List, NoMemory};
use std::alloc::Global;

impl Core {
    /// A seat trims a past node that the chain doesn't reach. Takes no memory.
    pub fn trim(&mut self, seat: u32, node: u64)
        requires core { IsCore self.old }
        requires quiet { IsQuiet (state_of self.old) }
        requires seat { IsSeat (plan_of self.old) seat }
        requires room { HasRoom 1 self.old }
        requires may { CanTrim (state_of self.old) node }
        ensures makes { Makes self.old self.new seat (Trim node) }
        ensures room { UsesRoom self.old self.new }
    {
        run_law();
        step_law();
        journal_law();
        let at = place_of(self.line.past(), node);
        self.desk.forget(&mut self.line, at);
        self.log.note(seat, Act::Trim(node));
    }

    /// A seat trims nodes, in this order, each behind the losses due then. Takes no memory.
    pub fn trim_all(&mut self, seat: u32, nodes: &[u64])
        requires core { IsCore self.old }
        requires seat { IsSeat (plan_of self.old) seat }
        requires driver { All (λ e. IsLoss e.act) self.old.log.journal.items → seat ≡ 0 }
        requires goes_on { (state_of self.old).graph.end ≡ None }
        requires may { spec.AreTrimmable (state_of self.old) nodes.now }
        requires room { HasRoom (length nodes.now) self.old }
        ensures trims { ComesBy self.old self.new
            (spec.trims_by (plan_of self.old) seat (state_of self.old) nodes.now) }
        ensures goes_on { (state_of self.new).graph.end ≡ None }
        ensures room { (n : ℕ) → HasRoom (length nodes.now + n) self.old → HasRoom n self.new }
    {
        beginning_law();
        for node in nodes {
            self.trim_next(seat, *node);
        }
    }

    /// The losses that are due come, and then a seat trims a node.
    fn trim_next(&mut self, seat: u32, node: u64)
        requires core { IsCore self.old }
        requires seat { IsSeat (plan_of self.old) seat }
        requires driver { All (λ e. IsLoss e.act) self.old.log.journal.items → seat ≡ 0 }
        requires goes_on { (state_of self.old).graph.end ≡ None }
        requires may { CanTrim (state_of self.old) node }
        requires room { HasRoom 1 self.old }
        ensures trims { ComesBy self.old self.new
            (spec.trim_by seat (state_of self.old) node) }
        ensures leaves { spec.LeavesTrims self.old self.new node }
        ensures room { UsesRoom self.old self.new }
    {
        beginning_law();
        journal_law();
        trimmed_law();
        self.lose_due(seat);
        self.trim(seat, node);
    }

    /// The numbers of the past nodes, in list order, that the chain doesn't reach once its head is
    /// settled, which stays in the past or is gone.
    pub fn unreached_behind_head(&self, alloc: Global, stays: bool) -> Result<List<u64>, NoMemory>
        requires core { IsCore self.now }
        requires goes_on { (state_of self.now).graph.end ≡ None }
        requires order { IsInOrder
            (spec.past_behind stays (state_of self.now).graph.past (state_of self.now).graph.chain)
            (drop 1 (state_of self.now).graph.chain) }
        ensures { IfOk result (AreUnreached
            (spec.past_behind stays (state_of self.now).graph.past (state_of self.now).graph.chain)
            (drop 1 (state_of self.now).graph.chain)) }
    {
        run_law();
        trim_among(
            alloc,
            past_behind(&self.line, stays),
            chain_behind(&self.line),
        )
    }
}

/// Past nodes that the chain doesn't reach may be trimmed, one after the other.
pub fn unreached_law()
    ensures { spec.UnreachedLaw }
{
    reach_law();
}

/// The two lists of nodes stand in order behind a head that is settled with a value.
pub fn behind_head_law()
    ensures { spec.BehindHeadLaw }
{
    in_order_law();
    settle_law();
}

/// The place of the first node of a number.
fn place_of(nodes: &[Node], number: u64) -> usize
    ensures { slice_get nodes.now result ≡ node_at nodes.now number }
{
    for (at, node) in nodes.iter().enumerate() {
        if node.id == number {
            return at;
        }
    }
    nodes.len()
}

/// The past nodes once the head of the chain is settled, which stays there or is gone.
#[tactic(auto, using(crate::proofs::Unreached::past_and_head))]
fn past_behind(line: &Line, stays: bool) -> &[Node]
    requires { line.now.settled < length line.now.nodes.items }
    ensures { result.now ≡ spec.past_behind stays (past_of line.now) (chain_of line.now) }
{
    if stays {
        &line.nodes[..line.settled + 1]
    } else {
        &line.nodes[..line.settled]
    }
}

/// The chain behind its head.
#[tactic(auto, using(crate::proofs::Unreached::chain_but_head))]
fn chain_behind(line: &Line) -> &[Node]
    requires { line.now.settled < length line.now.nodes.items }
    ensures { result.now ≡ drop 1 (chain_of line.now) }
{
    &line.nodes[line.settled + 1..]
}
