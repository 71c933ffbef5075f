//! Nodes that are being made.
ghost use Rattle.std.specs.Prelude.{◌≡◌, Some, None, IfOk};
ghost use Rattle.pyd_ir.specs.declared.arg.Arg.{Arg as AnArg};
ghost use Rattle.pyd_ir.specs.declared.arg.Arg.TheVariants as arg;
ghost use Rattle.pyd_translate.specs.Making as spec;
ghost use Rattle.pyd_translate.specs.Expressions as expressions;
ghost use Rattle.pyd_translate.specs.Drafts.{Makes, context_of};

use crate::context::Context;
use pyd_ir::{Arg, Node, OpCode, Ref, Work};
use pyd_value::{Fault, Kind, List, NoMemory};

/// The nodes so far, and the first number that no node has.
#[derive(Drop)]
pub struct Draft {
    pub nodes: List<Node>,
    pub next: u64,
}

/// One node more, and its number.
pub fn emit(at: &Context<'_>, work: Work, draft: &mut Draft) -> Result<u64, NoMemory>
    ensures { IfOk result (λ id.
        Makes draft.old (spec.emit (context_of at.now) work) draft.new (Some id)) }
{
    let id = draft.next;
    match id.checked_add(1) {
        Some(next) => {
            draft.nodes.add(Node {
                id,
                line: at.line,
                depth: at.depth,
                routine: at.routine,
                work,
            })?;
            draft.next = next;
            Ok(id)
        }
        None => {
            drop(work);
            Err(NoMemory)
        }
    }
}

/// One node more, and its value.
pub fn emit_value(at: &Context<'_>, work: Work, draft: &mut Draft) -> Result<Arg, NoMemory>
    ensures { IfOk result (λ a.
        Makes draft.old (spec.emit_value (context_of at.now) work) draft.new (Some a)) }
{
    let id = emit(at, work, draft)?;
    Ok(value_of(id))
}

/// The value of a node that is no composite with slots.
pub fn value_of(id: u64) -> Arg
    ensures { result ≡ arg.From (spec.port id 0) }
{
    Arg::From(Ref { node: id, port: 0 })
}

/// An operator's node, and its value.
pub(crate) fn operator(
    at: &Context<'_>,
    op: OpCode,
    args: List<Arg>,
    draft: &mut Draft,
) -> Result<Arg, NoMemory>
    ensures { IfOk result (λ a.
        Makes draft.old (expressions.operator op args (context_of at.now)) draft.new (Some a)) }
{
    emit_value(at, Work::Op { op, args }, draft)
}

/// A Stop that raises an exception in the line.
pub fn stop_by(at: &Context<'_>, kind: Kind, draft: &mut Draft) -> Result<(), NoMemory>
    ensures { IfOk result (λ stopped.
        Makes draft.old (spec.stop_by {A = AnArg} (context_of at.now) kind) draft.new None) }
{
    emit(at, Work::Stop(Fault::Raised(kind, at.line)), draft)?;
    Ok(())
}
