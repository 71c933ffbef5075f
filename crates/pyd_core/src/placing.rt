//! Nodes that may be placed, and their tickets.
ghost use Rattle.std.specs.Prelude.{◌≡◌, ◌<◌, ◌^◌, ℕ, suc, true, if◌then◌else◌, ◌&&◌, ◌||◌, drop, length, is_some, IfOk, Contains};
ghost use Rattle.std.specs.List.Sorted.{IsStrictlyIncreasing};
ghost use Rattle.pyd_board.specs.declared.event.Act.TheVariants.{Place};
ghost use Rattle.pyd_lineage.specs.Lineage.{is_among};
ghost use Rattle.pyd_runs.specs.Deciding as runs;
ghost use Rattle.pyd_runs.specs.Enabled.{IsQuiet, Lives};
ghost use Rattle.pyd_runs.specs.Plans.{IsSeat};
ghost use Rattle.pyd_desk.specs.Desks.{claim_by, mark_at};
ghost use Rattle.pyd_core.specs.Cores.{HasRoom, IsCore, plan_of, state_of};
ghost use Rattle.pyd_core.specs.Placing as spec;
ghost use Rattle.pyd_core.specs.Steps.{Makes, UsesRoom};

use crate::keeper::Core;
use pyd_board::{Act, Ticket};
use pyd_desk::{Desk, Held, Mark, heads, is_lost};
use pyd_ir::Node;
use pyd_lineage::needed_among;
use pyd_runs::{in_order_law, journal_law, number_law, place_test_law, run_law, step_law};
use pyd_value::{List, NoMemory};
use std::alloc::Global;

impl Core {
    /// A seat places a node that may be placed, for its next attempt. Takes no memory.
    pub fn place(&mut self, seat: u32, node: u64, machine: u32) -> Ticket
        requires core { IsCore self.old }
        requires room { HasRoom 1 self.old }
        requires seat { IsSeat (plan_of self.old) seat }
        requires quiet { IsQuiet (state_of self.old) }
        requires may { runs.may_place (state_of self.old) node ≡ true }
        requires lives { Lives (plan_of self.old) (state_of self.old).lost machine }
        ensures makes { Makes self.old self.new seat
            (Place node (spec.next_attempt_of self.old node) machine) }
        ensures ticket { result ≡ record {
          node = node;
          attempt = spec.next_attempt_of self.old node;
          machine = machine;
        } }
        ensures room { UsesRoom self.old self.new }
    {
        run_law();
        step_law();
        journal_law();
        number_law();
        place_test_law();
        let attempt = next_attempt(self.desk.marks.as_slice(), node);
        self.desk.place(node, attempt, machine);
        self.log.note(seat, Act::Place(node, attempt, machine));
        Ticket {
            node,
            attempt,
            machine,
        }
    }

    /// The numbers of all nodes that may be placed, rising.
    pub fn placeable(&self, alloc: Global) -> Result<Vec<u64>, NoMemory>
        requires { IsCore self.now }
        ensures rising { IfOk result (λ numbers. IsStrictlyIncreasing numbers.items) }
        ensures all { IfOk result (λ numbers. (k : ℕ)
            → is_among numbers.items k ≡ runs.may_place (state_of self.now) k) }
    {
        run_law();
        let missing = self.missing(alloc)?;
        let mut numbers = self.placeable_in_line(alloc, missing.as_slice())?;
        numbers.sort_unstable();
        Ok(numbers)
    }

    /// The numbers of the pure nodes that are needed and have no record, in list order.
    fn missing(&self, alloc: Global) -> Result<List<u64>, NoMemory>
        requires { IsCore self.now }
        ensures { IfOk result (λ numbers. numbers ≡ spec.missing_numbers self.now) }
    {
        run_law();
        in_order_law();
        let recorded = self.recorded(alloc)?;
        needed_among(
            alloc,
            self.line.past(),
            self.line.chain(),
            recorded.as_slice(),
        )
    }

    /// The numbers of the nodes that have records, in list order.
    pub(crate) fn recorded(&self, alloc: Global) -> Result<Vec<u64>, NoMemory>
        ensures { IfOk result (λ numbers. numbers.items ≡ spec.recorded_numbers self.now) }
    {
        let mut numbers = Vec::new(alloc);
        for node in self.line.nodes.as_slice() {
            if self.desk.outcome(node.id).is_some() {
                numbers.push(node.id)?;
            }
        }
        Ok(numbers)
    }

    /// The numbers of the nodes that may be placed, in list order, from those of the missing ones.
    fn placeable_in_line(&self, alloc: Global, missing: &[u64]) -> Result<Vec<u64>, NoMemory>
        requires core { IsCore self.now }
        requires missing { missing.now ≡ spec.missing_numbers self.now }
        ensures { IfOk result (λ numbers. numbers.items ≡ spec.placeable_numbers self.now) }
    {
        run_law();
        let mut numbers = Vec::new(alloc);
        let mut left = missing;
        for node in self.line.nodes.as_slice() {
            let is_missing = is_first(node.id, left);
            left = behind(left, is_missing);
            if self.may_be_placed(node, is_missing) {
                numbers.push(node.id)?;
            }
        }
        Ok(numbers)
    }

    /// Whether a node of the line may be placed.
    fn may_be_placed(&self, node: &Node, is_missing: bool) -> bool
        requires core { IsCore self.now }
        requires node { Contains self.now.line.nodes.items node.now }
        requires missing { is_missing ≡ spec.is_missing (state_of self.now) node.now }
        ensures { result ≡ runs.may_place (state_of self.now) node.now.id }
    {
        run_law();
        let is_head = heads(node.id, self.line.chain());
        is_open(&self.desk, node, is_head, is_missing)
    }
}

/// The attempt of a node behind those that were placed.
fn next_attempt(marks: &[Mark], node: u64) -> u64
    requires node { node < length marks.now }
    requires few { suc (mark_at marks.now node).places < 2 ^ 64 }
    ensures { result ≡ suc (mark_at marks.now node).places }
{
    marks[node as usize].places + 1
}

/// Whether the first of some numbers is this one.
fn is_first(number: u64, numbers: &[u64]) -> bool
    ensures { result ≡ spec.is_first number numbers.now }
{
    match numbers.first() {
        Some(first) => *first == number,
        None => false,
    }
}

/// The numbers behind the first one, if that is taken.
fn behind(numbers: &[u64], is_taken: bool) -> &[u64]
    ensures { result.now ≡ (if is_taken then drop 1 numbers.now else numbers.now) }
{
    if is_taken && !numbers.is_empty() {
        &numbers[1..]
    } else {
        numbers
    }
}

/// Whether a node that is missing or the chain's head is ready and free.
fn is_open(desk: &Desk, node: &Node, is_head: bool, is_missing: bool) -> bool
    ensures { result ≡ ((is_missing || is_head) && (spec.is_ready_on desk.now node.now is_head
        && spec.is_free_on desk.now node.now.id)) }
{
    (is_missing || is_head) && desk.is_ready(node, is_head) && is_free(desk, node.id)
}

/// Whether a node has none of a record, a ticket and a claim.
fn is_free(desk: &Desk, node: u64) -> bool
    ensures { result ≡ spec.is_free_on desk.now node }
{
    desk.outcome(node).is_none() && is_unmarked(desk.marks.as_slice(), desk.alive.as_slice(), node)
}

/// Whether a node has neither a ticket nor a claim whose machine lives.
fn is_unmarked(marks: &[Mark], alive: &[bool], node: u64) -> bool
    ensures { result ≡ spec.is_unmarked alive.now (mark_at marks.now node) }
{
    match marks.get(node as usize) {
        Some(mark) => mark.ticket.is_none() && !is_claimed(&mark.claim, alive),
        None => true,
    }
}

/// Whether there is a claim whose machine lives.
fn is_claimed(claim: &Option<Held>, alive: &[bool]) -> bool
    ensures { result ≡ is_some (claim_by alive.now claim.now) }
{
    match claim {
        Some(held) => !is_lost(alive, held.machine),
        None => false,
    }
}
