//! Kinds of nodes.
ghost use Rattle.std.specs.Prelude.{◌≡◌};
ghost use Rattle.pyd_ir.specs.Arguments as arguments;
ghost use Rattle.pyd_desk.specs.Works as spec;

use crate::desk::PortKind;
use pyd_ir::{OpCode, Work};

/// Whether a node may be done at any time, and again.
pub fn is_pure(work: &Work) -> bool
    ensures { result ≡ arguments.is_pure work.now }
{
    match work {
        Work::Op { .. } | Work::Read { .. } | Work::Call { .. } | Work::Stop(_) => true,
        Work::Print(_)
        | Work::Run { .. }
        | Work::Cond { .. }
        | Work::While { .. }
        | Work::For { .. }
        | Work::Pick { .. }
        | Work::Enter { .. } => false,
    }
}

/// Whether a piece takes a node's place before anything of it is done.
pub fn is_composite(work: &Work) -> bool
    ensures { result ≡ arguments.is_composite work.now }
{
    match work {
        Work::Cond { .. }
        | Work::While { .. }
        | Work::For { .. }
        | Work::Pick { .. }
        | Work::Enter { .. } => true,
        Work::Op { .. }
        | Work::Read { .. }
        | Work::Call { .. }
        | Work::Stop(_)
        | Work::Print(_)
        | Work::Run { .. } => false,
    }
}

/// Whether a node has a job: whoever claims it does it.
pub fn has_job(work: &Work) -> bool
    ensures { result ≡ spec.has_job work.now }
{
    match work {
        Work::Op { .. } | Work::Read { .. } | Work::Call { .. } | Work::Run { .. } => true,
        Work::Stop(_)
        | Work::Print(_)
        | Work::Cond { .. }
        | Work::While { .. }
        | Work::For { .. }
        | Work::Pick { .. }
        | Work::Enter { .. } => false,
    }
}

/// What stands at a node's ports once it has given a value.
pub fn port_kind(work: &Work) -> PortKind
    ensures { result ≡ spec.port_kind work.now }
{
    match work {
        Work::Op { op, .. } => op_kind(*op),
        Work::Read { .. } | Work::Call { .. } | Work::Print(_) | Work::Run { .. } => PortKind::One,
        Work::Stop(_)
        | Work::Cond { .. }
        | Work::While { .. }
        | Work::For { .. }
        | Work::Pick { .. }
        | Work::Enter { .. } => PortKind::Nothing,
    }
}

fn op_kind(op: OpCode) -> PortKind
    ensures { result ≡ spec.op_kind op }
{
    match op {
        OpCode::Unpack(_) => PortKind::Items,
        OpCode::Unary(_)
        | OpCode::Binary(_)
        | OpCode::Compare(_)
        | OpCode::Index
        | OpCode::Slice { .. }
        | OpCode::Tuple
        | OpCode::Len
        | OpCode::Abs
        | OpCode::Min
        | OpCode::Max
        | OpCode::Sum
        | OpCode::Str
        | OpCode::Repr
        | OpCode::Int
        | OpCode::Bool
        | OpCode::Range
        | OpCode::Assert => PortKind::One,
    }
}
