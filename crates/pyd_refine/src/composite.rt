//! The nodes that take the place of a composite.
ghost use Rattle.std.specs.Prelude.{◌≡◌, Some, IfOk};
ghost use Rattle.std.specs.Option.{option_copied};
ghost use Rattle.pyd_translate.specs.Flows.{file_in};
ghost use Rattle.pyd_translate.specs.Starts.{piece_of};
ghost use Rattle.pyd_translate.specs.Statements.{done};
ghost use Rattle.pyd_refine.specs.Composites as spec;
ghost use Rattle.pyd_refine.specs.Drafts.{Ends, IsSettingOf};

use crate::cond::refine_cond;
use crate::enter::refine_enter;
use crate::pick::refine_pick;
use crate::stop::stop_by;
use crate::turn::{Round, refine_loop};
use pyd_ir::{Arg, Node, Work};
use pyd_meaning::Limits;
use pyd_scope::Program;
use pyd_translate::{Draft, Piece, Setting, slots_of};
use pyd_value::{Kind, List, NoMemory, Value, truth};
use std::alloc::Global;

/// The piece that takes the place of a composite, numbered from a number on that no node has. `control` is
/// the value of its control: of its test or its iterable. An Enter has none, and where that of another is
/// absent the piece is a Stop. A leaf has the piece without nodes.
pub fn refine(
    alloc: Global,
    program: &Program,
    limits: Limits,
    node: &Node,
    control: Option<&Value>,
    ids: u64,
) -> Result<Piece, NoMemory>
    ensures { IfOk result (λ p. p
        ≡ spec.refined_piece program.now.file limits node.now (option_copied control.entry) ids) }
{
    let at = Setting {
        alloc,
        program,
        routine: node.routine,
        depth: node.depth,
    };
    let mut env = slots_of(alloc, slots(&node.work))?;
    let mut draft = Draft {
        nodes: List::new(alloc),
        next: ids,
    };
    let value = refine_node(&at, limits, node, control, &mut env, &mut draft)?;
    piece(alloc, env, value, draft)
}

/// The slots that have ports.
fn slots(work: &Work) -> &[Arg]
    ensures { result.now ≡ spec.slots_of work.now }
{
    match work {
        Work::Cond { env, .. } | Work::While { env, .. } | Work::For { env, .. } => env.as_slice(),
        Work::Pick { .. }
        | Work::Enter { .. }
        | Work::Op { .. }
        | Work::Read { .. }
        | Work::Call { .. }
        | Work::Stop(_)
        | Work::Print(_)
        | Work::Run { .. } => &[],
    }
}

/// The nodes, in a draft, and their value. The slots are those that have ports.
fn refine_node(
    at: &Setting<'_>,
    limits: Limits,
    node: &Node,
    control: Option<&Value>,
    env: &mut Vec<Arg>,
    draft: &mut Draft,
) -> Result<Arg, NoMemory>
    requires setting { IsSettingOf node.now at.now }
    requires slots { env.old.items ≡ spec.slots_of node.now.work }
    ensures { IfOk result (λ v. Ends draft.old
        (spec.refined (file_in at.now) limits node.now (option_copied control.entry))
        env.old.items draft.new env.new.items v) }
{
    match &node.work {
        Work::Cond { .. } | Work::While { .. } | Work::For { .. } | Work::Pick { .. } => {
            match control {
                Some(v) => refine_by(at, limits, node, v, env, draft),
                None => stop_by(at, node.line, Kind::NameError, draft),
            }
        }
        Work::Enter { func, args } => {
            refine_enter(at, limits, node.line, *func, args.as_slice(), draft)
        }
        Work::Op { .. }
        | Work::Read { .. }
        | Work::Call { .. }
        | Work::Stop(_)
        | Work::Print(_)
        | Work::Run { .. } => Ok(Arg::Unbound),
    }
}

/// The same, by the value of the control.
fn refine_by(
    at: &Setting<'_>,
    limits: Limits,
    node: &Node,
    control: &Value,
    env: &mut Vec<Arg>,
    draft: &mut Draft,
) -> Result<Arg, NoMemory>
    requires setting { IsSettingOf node.now at.now }
    requires slots { env.old.items ≡ spec.slots_of node.now.work }
    ensures { IfOk result (λ v. Ends draft.old
        (spec.refined (file_in at.now) limits node.now (Some control.now))
        env.old.items draft.new env.new.items v) }
{
    match &node.work {
        Work::Cond {
            stmt,
            arm,
            rest,
            ..
        } => { refine_cond(at, *stmt, *arm, rest.as_slice(), truth(control), env, draft) }
        Work::While {
            test,
            stmt,
            turns,
            rest,
            ..
        } => {
            let round = Round {
                limits,
                stmt: *stmt,
                turns: *turns,
                rest: rest.as_slice(),
            };
            refine_loop(at, &round, test, control, env, draft)
        }
        Work::For {
            over,
            stmt,
            turns,
            rest,
            ..
        } => {
            let round = Round {
                limits,
                stmt: *stmt,
                turns: *turns,
                rest: rest.as_slice(),
            };
            refine_loop(at, &round, over, control, env, draft)
        }
        Work::Pick {
            yes,
            no,
            env: slots,
            ..
        } => {
            refine_pick(
                at,
                node.line,
                truth(control),
                yes,
                no,
                slots.as_slice(),
                draft,
            )
        }
        Work::Enter { func, args } => {
            refine_enter(at, limits, node.line, *func, args.as_slice(), draft)
        }
        Work::Op { .. }
        | Work::Read { .. }
        | Work::Call { .. }
        | Work::Stop(_)
        | Work::Print(_)
        | Work::Run { .. } => Ok(Arg::Unbound),
    }
}

/// Nodes that were made, with what the slots and the value are then.
fn piece(alloc: Global, slots: Vec<Arg>, value: Arg, draft: Draft) -> Result<Piece, NoMemory>
    ensures { IfOk result
        (λ p. p ≡ piece_of draft.nodes (done slots.items value) draft.next) }
{
    match List::from_vec(alloc, slots) {
        Ok(env) => Ok(Piece {
            nodes: draft.nodes,
            env,
            value,
            next: draft.next,
        }),
        Err(NoMemory) => {
            drop(value);
            Err(NoMemory)
        }
    }
}
