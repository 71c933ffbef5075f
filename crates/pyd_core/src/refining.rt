//! The first composite that may be refined, and its refinement.
ghost use Rattle.std.specs.Prelude.{◌≡◌, ◌<◌, ◌&&◌, take, MatchOption, OnOk, OnErr, IfOk, Some, length};
ghost use Rattle.std.specs.List.{slice_get};
ghost use Rattle.std.specs.Option.{option_copied};
ghost use Rattle.pyd_ir.specs.Arguments as arguments;
ghost use Rattle.pyd_ir.specs.declared.node.Node.{Node};
ghost use Rattle.pyd_refine.specs.Readiness as readiness;
ghost use Rattle.pyd_runs.specs.Deciding as runs;
ghost use Rattle.pyd_runs.specs.Enabled.{IsQuiet};
ghost use Rattle.pyd_runs.specs.Growth.{piece_for};
ghost use Rattle.pyd_runs.specs.Plans.{IsSeat};
ghost use Rattle.pyd_desk.specs.Lines.{chain_of};
ghost use Rattle.pyd_desk.specs.Reading.{given_of};
ghost use Rattle.pyd_core.specs.Cores.{HasRoom, IsCore, plan_of, state_of};
ghost use Rattle.pyd_core.specs.Refining.{IsFirstRefinable, IsPieceAt, IsRefinableAt, NoneRefinable, RefinesAt, first_place_from};
ghost use Rattle.pyd_core.specs.Steps.{Stays};

use crate::keeper::Core;
use crate::starting::end_of;
use pyd_board::{Act, Setup};
use pyd_desk::{Desk, is_composite};
use pyd_ir::{Arg, Node, Work};
use pyd_meaning::Limits;
use pyd_refine::refine;
use pyd_runs::{journal_law, refine_test_law, run_law, step_law};
use pyd_scope::Program;
use pyd_translate::Piece;
use pyd_value::{NoMemory, Value};
use std::alloc::Global;

impl Core {
    /// The place in the chain of the first composite that may be refined. Takes no memory.
    pub fn first_refinable(&self) -> Option<usize>
        requires { IsCore self.now }
        ensures { MatchOption result (NoneRefinable self.now) (IsFirstRefinable self.now) }
    {
        run_law();
        refine_test_law();
        first_open(&self.desk, front(self.line.chain(), self.setup.window))
    }

    /// A seat refines the composite at a place of the chain. Where there is no memory only room changes.
    pub fn refine(&mut self, seat: u32, at: usize) -> Result<(), NoMemory>
        requires core { IsCore self.old }
        requires quiet { IsQuiet (state_of self.old) }
        requires seat { IsSeat (plan_of self.old) seat }
        requires may { IsRefinableAt self.old at }
        ensures ok { OnOk result (RefinesAt self.old self.new seat at) }
        ensures memory { OnErr result (Stays self.old self.new) }
    {
        self.make_room(1)?;
        self.refine_reserved(seat, at)
    }

    /// A seat refines it once there is room for the entry.
    fn refine_reserved(&mut self, seat: u32, at: usize) -> Result<(), NoMemory>
        requires core { IsCore self.old }
        requires room { HasRoom 1 self.old }
        requires quiet { IsQuiet (state_of self.old) }
        requires seat { IsSeat (plan_of self.old) seat }
        requires may { IsRefinableAt self.old at }
        ensures ok { OnOk result (RefinesAt self.old self.new seat at) }
        ensures memory { OnErr result (Stays self.old self.new) }
    {
        run_law();
        step_law();
        journal_law();
        let piece = self.piece_at(at)?;
        let number = node_at(self.line.chain(), at).id;
        let grown = self.desk.grow(self.alloc, &mut self.line, at, &piece);
        drop(piece);
        grown?;
        self.end = end_of(self.line.chain());
        self.log.note(seat, Act::Refine(number));
        Ok(())
    }

    /// The piece of the node at a place of the chain.
    fn piece_at(&self, at: usize) -> Result<Piece, NoMemory>
        requires core { IsCore self.now }
        requires place { at < length (chain_of self.now.line) }
        ensures { IfOk result (λ piece. IsPieceAt self.now at piece) }
    {
        piece_of(
            self.alloc,
            &self.program,
            &self.setup,
            &self.desk,
            node_at(self.line.chain(), at),
        )
    }
}

/// The piece of a node, by what stands at the ports, numbered behind all marks.
fn piece_of(
    alloc: Global,
    program: &Program,
    setup: &Setup,
    desk: &Desk,
    node: &Node,
) -> Result<Piece, NoMemory>
    ensures { IfOk result (λ piece. piece
        ≡ piece_for (record { file = program.now.file; setup = setup.now }) (given_of desk.now)
        (length desk.now.marks.items) node.now) }
{
    let limits = Limits {
        turns: setup.turns,
        depth: setup.depth,
    };
    let control = control_value(alloc, desk, &node.work)?;
    let ids = desk.marks.len() as u64;
    let piece = refine(alloc, program, limits, node, control.as_ref(), ids);
    drop(control);
    piece
}

/// The value of a work's control, if there is one.
fn control_value(alloc: Global, desk: &Desk, work: &Work) -> Result<Option<Value>, NoMemory>
    ensures { IfOk result (λ value. value
        ≡ readiness.control_value (given_of desk.now) work.now) }
{
    match control(work) {
        Some(arg) => desk.value(alloc, arg),
        None => Ok(None),
    }
}

/// The argument on whose value it depends which piece takes the place of a composite.
fn control(work: &Work) -> Option<&Arg>
    ensures { option_copied result ≡ arguments.control work.now }
{
    match work {
        Work::Cond { test, .. } => Some(test),
        Work::While { test, .. } => Some(test),
        Work::For { over, .. } => Some(over),
        Work::Pick { test, .. } => Some(test),
        Work::Op { .. }
        | Work::Read { .. }
        | Work::Call { .. }
        | Work::Stop(_)
        | Work::Print(_)
        | Work::Run { .. }
        | Work::Enter { .. } => None,
    }
}

/// The node at a place.
fn node_at(nodes: &[Node], at: usize) -> &Node
    requires { at < length nodes.now }
    ensures { (n : Node) → slice_get nodes.now at ≡ Some n → result.now ≡ n }
{
    &nodes[at]
}

/// So many nodes of the beginning of a list, or all.
fn front(nodes: &[Node], count: u32) -> &[Node]
    ensures { result.now ≡ take count nodes.now }
{
    if (count as usize) < nodes.len() {
        &nodes[..count as usize]
    } else {
        nodes
    }
}

/// The place of the first composite whose control has a value.
fn first_open(desk: &Desk, nodes: &[Node]) -> Option<usize>
    ensures { result ≡ first_place_from
        (λ n. runs.is_refinable (given_of desk.now) (Some n)) 0 nodes.now }
{
    for (place, node) in nodes.iter().enumerate() {
        if is_open(desk, &node.work) {
            return Some(place);
        }
    }
    None
}

/// Whether a work is a composite whose control has a value, if there is one.
fn is_open(desk: &Desk, work: &Work) -> bool
    ensures { result ≡ (arguments.is_composite work.now
        && runs.is_controlled (given_of desk.now) (arguments.control work.now)) }
{
    is_composite(work) && is_controlled(desk, control(work))
}

/// Whether an argument has a value, if there is one.
fn is_controlled(desk: &Desk, arg: Option<&Arg>) -> bool
    ensures { result ≡ runs.is_controlled (given_of desk.now) (option_copied arg.entry) }
{
    match arg {
        Some(arg) => desk.has_value(arg),
        None => true,
    }
}
