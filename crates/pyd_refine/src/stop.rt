//! The end of a piece by a Stop.
ghost use Rattle.std.specs.Prelude.{List, IfOk};
ghost use Rattle.pyd_ir.specs.declared.arg.Arg.{Arg as AnArg};
ghost use Rattle.pyd_translate.specs.Flows.{context_in};
ghost use Rattle.pyd_translate.specs.Making as making;
ghost use Rattle.pyd_refine.specs.Drafts.{Ends};

use pyd_ir::{Arg, Work};
use pyd_translate::{Draft, Setting, emit};
use pyd_value::{Fault, Kind, NoMemory};

/// A Stop in a line. The slots are as they were, whatever they are, and the value is left out.
pub(crate) fn stop(
    at: &Setting<'_>,
    line: u32,
    fault: Fault,
    draft: &mut Draft,
) -> Result<Arg, NoMemory>
    ensures { IfOk result (λ v. (env slots : List AnArg) →
        Ends draft.old (making.stop (context_in at.now line env) fault) slots draft.new slots v) }
{
    emit(&at.context(line, &[]), Work::Stop(fault), draft)?;
    Ok(Arg::Unbound)
}

/// A Stop that raises an exception in a line.
pub(crate) fn stop_by(
    at: &Setting<'_>,
    line: u32,
    kind: Kind,
    draft: &mut Draft,
) -> Result<Arg, NoMemory>
    ensures { IfOk result (λ v. (env slots : List AnArg) →
        Ends draft.old (making.stop_by (context_in at.now line env) kind) slots draft.new slots v) }
{
    stop(at, line, Fault::Raised(kind, line), draft)
}
