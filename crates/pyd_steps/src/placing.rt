//! Nodes that are placed in a row.
ghost use Rattle.std.specs.Prelude.{◌≡◌, ◌<◌, ◌≤◌, ◌+◌, ◌^◌, ℕ, All, IfOk, MatchOption, None, OnErr, Some, drop, is_some, length, option_map, true};
ghost use Rattle.std.specs.Option.{option_copied};
ghost use Rattle.pyd_lineage.specs.Lineage.{is_among};
ghost use Rattle.pyd_runs.specs.Deciding as runs;
ghost use Rattle.pyd_runs.specs.Enabled.{IsLoss, IsQuiet, due};
ghost use Rattle.pyd_runs.specs.NextLosses.{due_after};
ghost use Rattle.pyd_runs.specs.Plans.{IsSeat};
ghost use Rattle.pyd_runs.specs.Replay.{after};
ghost use Rattle.pyd_desk.specs.Desks.{driver_of, mark_at};
ghost use Rattle.pyd_core.specs.Cores.{HasRoom, IsCore, plan_of, state_of};
ghost use Rattle.pyd_core.specs.Losing.{losses_by};
ghost use Rattle.pyd_core.specs.Placing.{is_wanted};
ghost use Rattle.pyd_core.specs.Refining.{NoneRefinable};
ghost use Rattle.pyd_core.specs.Settling.{NoneSettles};
ghost use Rattle.pyd_core.specs.Steps.{Stays, UsesRoom};
ghost use Rattle.pyd_steps.specs.Placers.{AsksBetween};
ghost use Rattle.pyd_steps.specs.Placing as spec;
ghost use Rattle.pyd_steps.specs.Placing.{PlacesInRow, PlacesNext, PlacesNone};

use crate::placers::{choose, tell};
use pyd_board::{Event, Loss, Placer, Ticket};
use pyd_core::{Core, next_law, wanted_law};
use pyd_desk::{Desk, find};
use pyd_ir::{Arg, Node, Work};
use pyd_runs::{beginning_law, journal_law, place_test_law, run_law, step_law};
use pyd_value::NoMemory;

/// Goes through the nodes that may be placed, in order of their numbers, and a seat places each that
/// may still be placed then, behind the losses that are due. Answers their tickets; none where no
/// node may be placed.
pub fn place_all(
    core: &mut Core,
    placer: &mut Option<Box<dyn Placer + Send>>,
    seat: u32,
) -> Result<Option<Vec<Ticket>>, NoMemory>
    requires core { IsCore core.old }
    requires quiet { IsQuiet (state_of core.old) }
    requires seat { IsSeat (plan_of core.old) seat }
    requires no_settle { NoneSettles (state_of core.old) }
    requires no_refine { NoneRefinable core.old }
    ensures places { IfOk result (λ placed. MatchOption placed (PlacesNone core.old core.new)
        (λ tickets. PlacesInRow core.old core.new seat tickets.items)) }
    ensures memory { OnErr result (Stays core.old core.new) }
    ensures asks { AsksBetween core.old core.new
        (option_map (λ b. calls b) placer.old) (option_map (λ b. calls b) placer.new) }
{
    beginning_law();
    step_law();
    journal_law();
    run_law();
    place_test_law();
    next_law();
    wanted_law();
    let numbers = core.placeable(core.alloc)?;
    if numbers.is_empty() {
        return Ok(None);
    }
    let mut tickets = Vec::with_capacity(core.alloc, numbers.len())?;
    core.make_room(numbers.len())?;
    for node in numbers.as_slice() {
        if stays_placeable(core, *node) {
            tickets.push_reserved(place_next(core, placer, seat, *node));
        }
    }
    Ok(Some(tickets))
}

/// The losses that are due come, and then a seat places a node that may be placed behind them.
fn place_next(
    core: &mut Core,
    placer: &mut Option<Box<dyn Placer + Send>>,
    seat: u32,
    node: u64,
) -> Ticket
    requires core { IsCore core.old }
    requires seat { IsSeat (plan_of core.old) seat }
    requires driver { (machine : ℕ) → due (state_of core.old) ≡ Some machine
        → All (λ e. IsLoss e.act) core.old.log.journal.items → seat ≡ 0 }
    requires goes_on { (state_of core.old).graph.end ≡ None }
    requires may { runs.may_place (after (plan_of core.old) (state_of core.old)
        (losses_by seat (state_of core.old))) node ≡ true }
    requires room { HasRoom 1 core.old }
    ensures places { PlacesNext core.old core.new seat node result }
    ensures room { UsesRoom core.old core.new }
    ensures asks { AsksBetween core.old core.new
        (option_map (λ b. calls b) placer.old) (option_map (λ b. calls b) placer.new) }
{
    beginning_law();
    let before = core.log.journal.as_slice().len();
    core.lose_due(seat);
    tell(placer, entries_from(core.log.journal.as_slice(), before));
    let machine = choose(placer, core, node);
    core.place(seat, node, machine)
}

/// The entries from a place on.
fn entries_from(entries: &[Event], place: usize) -> &[Event]
    requires { place ≤ length entries.now }
    ensures { result.now ≡ drop place entries.now }
{
    &entries[place..]
}

/// Whether a node that is needed and free may be placed behind the losses that are due.
fn stays_placeable(core: &Core, node: u64) -> bool
    requires core { IsCore core.now }
    requires goes_on { (state_of core.now).graph.end ≡ None }
    requires wanted { is_wanted (state_of core.now) node ≡ true }
    ensures { (seat : ℕ) → result ≡ runs.may_place (after (plan_of core.now) (state_of core.now)
        (losses_by seat (state_of core.now))) node }
{
    journal_law();
    wanted_law();
    core.may_place(node) && stays_ready(core, find(core.line.nodes.as_slice(), node))
}

/// Whether a node, if there is one, keeps what it waits for behind the losses that are due.
fn stays_ready(core: &Core, node: Option<&Node>) -> bool
    requires { IsCore core.now }
    ensures { result ≡ spec.stays_ready (spec.outlasts core.now (spec.machines_due core.now))
        (option_copied node.entry) }
{
    match node {
        Some(node) => keeps_inputs(core, &node.work),
        None => true,
    }
}

/// Whether the arguments of a work that has a job keep their values.
fn keeps_inputs(core: &Core, work: &Work) -> bool
    requires { IsCore core.now }
    ensures { result ≡ spec.keeps_inputs (spec.outlasts core.now (spec.machines_due core.now))
        work.now }
{
    match work {
        Work::Op { args, .. } => keep_values(core, args.as_slice()),
        Work::Read { arg, .. } => keeps_value(core, arg),
        Work::Call { args, .. } => keep_values(core, args.as_slice()),
        Work::Run { args, .. } => keep_values(core, args.as_slice()),
        Work::Stop(_)
        | Work::Print(_)
        | Work::Cond { .. }
        | Work::While { .. }
        | Work::For { .. }
        | Work::Pick { .. }
        | Work::Enter { .. } => true,
    }
}

/// Whether all arguments that have values keep them.
fn keep_values(core: &Core, args: &[Arg]) -> bool
    requires { IsCore core.now }
    ensures { result ≡ spec.keep_values (spec.outlasts core.now (spec.machines_due core.now))
        args.now }
{
    for arg in args {
        if !keeps_value(core, arg) {
            return false;
        }
    }
    true
}

/// Whether an argument that has a value keeps it.
fn keeps_value(core: &Core, arg: &Arg) -> bool
    requires { IsCore core.now }
    ensures { result ≡ spec.keeps_value (spec.outlasts core.now (spec.machines_due core.now))
        arg.now }
{
    match arg {
        Arg::Known(_) => true,
        Arg::From(at) => outlasts(core, at.node),
        Arg::Slot(at) => outlasts(core, at.node),
        Arg::Unbound => true,
    }
}

/// Whether the record of a node, if it has one, is left behind the losses that are due.
fn outlasts(core: &Core, node: u64) -> bool
    requires { IsCore core.now }
    ensures { result ≡ spec.outlasts core.now (spec.machines_due core.now) node }
{
    is_driven(&core.desk, node) || !falls(core, machine_of(&core.desk, node))
}

/// Whether the driver keeps the record of a node.
fn is_driven(desk: &Desk, node: u64) -> bool
    ensures { result ≡ is_some (driver_of desk.now node) }
{
    match desk.driver.get(node as usize) {
        Some(ran) => ran.is_some(),
        None => false,
    }
}

/// The machine in whose store the record of a node may be.
fn machine_of(desk: &Desk, node: u64) -> Option<u32>
    ensures { result ≡ (mark_at desk.now.marks.items node).machine }
{
    match desk.marks.get(node as usize) {
        Some(mark) => mark.machine,
        None => None,
    }
}

/// Whether the loss of a machine, if there is one, is due.
fn falls(core: &Core, machine: Option<u32>) -> bool
    requires { IsCore core.now }
    ensures { result ≡ spec.falls (spec.machines_due core.now) machine }
{
    match machine {
        Some(machine) => is_due(
            losses_left(core.setup.losses.as_slice(), core.lost),
            core.log.journal.len(),
            machine,
        ),
        None => false,
    }
}

/// The losses of a script behind so many of them.
#[tactic(auto, using(crate::proofs::Spared::none_left))]
fn losses_left(losses: &[Loss], lost: usize) -> &[Loss]
    ensures { result.now ≡ drop lost losses.now }
{
    if lost <= losses.len() {
        &losses[lost..]
    } else {
        &losses[losses.len()..]
    }
}

/// Whether the loss of a machine comes due, with those before it, behind so many events.
fn is_due(losses: &[Loss], events: usize, machine: u32) -> bool
    requires { events + length losses.now < 2 ^ 64 }
    ensures { result ≡ is_among (due_after events losses.now) machine }
{
    for (at, loss) in losses.iter().enumerate() {
        if loss.event as usize > events + at {
            return false;
        }
        if loss.machine == machine {
            return true;
        }
    }
    false
}
