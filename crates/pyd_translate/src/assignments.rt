//! Assignments (Python Language Reference, section 7.2).
ghost use Rattle.std.specs.Prelude.{IfOk};
ghost use Rattle.pyd_translate.specs.Drafts.{Makes};
ghost use Rattle.pyd_translate.specs.Flows as flows;
ghost use Rattle.pyd_translate.specs.Flows.{Binds};

use crate::draft::Draft;
use crate::env::set_slot;
use crate::expressions::build_operation;
use crate::names::name_operand;
use crate::spot::Spot;
use crate::statements::build_header;
use crate::targets::bind_targets;
use pyd_ir::Arg;
use pyd_tree::{BinOp, Expr, Targets};
use pyd_value::{NoMemory, Text};

/// An assignment. Answers whether it goes on.
pub(crate) fn build_assign(
    at: &Spot<'_>,
    targets: &Targets,
    e: &Expr,
    env: &mut Vec<Arg>,
    draft: &mut Draft,
) -> Result<bool, NoMemory>
    ensures { IfOk result (λ goes. Binds draft.old
        (flows.assigned_at at.now targets.now e.now env.old.items) draft.new goes
        env.old.items env.new.items) }
{
    match build_header(at, e, env.as_slice(), draft)? {
        Some(value) => bind_targets(&at.setting, at.line, targets, value, env, draft),
        None => Ok(false),
    }
}

/// An augmented assignment. Answers whether it goes on.
pub(crate) fn build_augmented(
    at: &Spot<'_>,
    name: &Text,
    op: BinOp,
    e: &Expr,
    env: &mut Vec<Arg>,
    draft: &mut Draft,
) -> Result<bool, NoMemory>
    ensures { IfOk result (λ goes. Binds draft.old
        (flows.augmented_at at.now name.now op e.now env.old.items) draft.new goes
        env.old.items env.new.items) }
{
    match augmented(at, name, op, e, env.as_slice(), draft)? {
        Some(value) => {
            set_slot(&at.setting, env, name, value);
            Ok(true)
        }
        None => Ok(false),
    }
}

/// A name, the right side, and then the operator between them.
fn augmented(
    at: &Spot<'_>,
    name: &Text,
    op: BinOp,
    e: &Expr,
    env: &[Arg],
    draft: &mut Draft,
) -> Result<Option<Arg>, NoMemory>
    ensures { IfOk result (λ got. Makes draft.old
        (flows.operation_at at.now name.now op e.now env.now) draft.new got) }
{
    let context = at.context(env);
    match name_operand(&context, name, draft)? {
        Some(left) => {
            let made = build_operation(&context, at.point.expression, op, &left, e, draft);
            drop(left);
            made
        }
        None => Ok(None),
    }
}
