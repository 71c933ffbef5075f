//! The `assert` statement (Python Language Reference, section 7.3).
ghost use Rattle.std.specs.Prelude.{Some, IfOk};
ghost use Rattle.pyd_translate.specs.Drafts.{Makes};
ghost use Rattle.pyd_translate.specs.Flows as flows;
ghost use Rattle.pyd_translate.specs.Flows.{Binds, Passes};

use crate::arguments::one;
use crate::choices::choose;
use crate::draft::{Draft, operator};
use crate::setting::past_expression;
use crate::spot::Spot;
use crate::statements::build_header;
use pyd_ir::{Arg, OpCode, Side};
use pyd_tree::Expr;
use pyd_value::{NoMemory, Value};

/// An `assert`. Answers whether it goes on.
pub(crate) fn build_assert(
    at: &Spot<'_>,
    test: &Expr,
    message: &Option<Expr>,
    env: &[Arg],
    draft: &mut Draft,
) -> Result<bool, NoMemory>
    ensures { IfOk result (λ goes. Binds draft.old
        (flows.asserted_at at.now test.now message.now env.now) draft.new goes env.now env.now) }
{
    match build_header(at, test, env, draft)? {
        Some(value) => {
            build_asserted(at, test, message, value, env, draft)?;
            Ok(true)
        }
        None => Ok(false),
    }
}

/// The message of an `assert`, and then its test once more.
fn build_asserted(
    at: &Spot<'_>,
    test: &Expr,
    message: &Option<Expr>,
    value: Arg,
    env: &[Arg],
    draft: &mut Draft,
) -> Result<(), NoMemory>
    ensures { IfOk result (λ made. Makes draft.old
        (flows.raised_at at.now test.now message.now value env.now) draft.new (Some env.now)) }
{
    match build_message(at, test, message, &value, env, draft) {
        Ok(()) => {
            let args = one(at.setting.alloc, value)?;
            drop(operator(&at.context(env), OpCode::Assert, args, draft)?);
            Ok(())
        }
        Err(NoMemory) => {
            drop(value);
            Err(NoMemory)
        }
    }
}

/// The message of an `assert`, evaluated where the test is false.
fn build_message(
    at: &Spot<'_>,
    test: &Expr,
    message: &Option<Expr>,
    value: &Arg,
    env: &[Arg],
    draft: &mut Draft,
) -> Result<(), NoMemory>
    ensures { IfOk result (λ made. Passes draft.old
        (flows.message_at at.now test.now message.now value.now env.now) draft.new) }
{
    match message {
        Some(_) => {
            let behind = past_expression(test, at.point)?;
            let copy = value.try_copy(at.setting.alloc)?;
            let nothing = Side::Arg(Arg::Known(Value::None));
            drop(choose(
                &at.context(env),
                copy,
                nothing,
                Side::Expr(behind.expression),
                draft,
            )?);
            Ok(())
        }
        None => Ok(()),
    }
}
