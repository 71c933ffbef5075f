//! Choices within an expression (Python Language Reference, sections 6.10 to 6.13).
ghost use Rattle.std.specs.Prelude.{◌≡◌, map, Some, IfOk};
ghost use Rattle.pyd_translate.specs.Drafts as drafts;
ghost use Rattle.pyd_translate.specs.Drafts.{Makes, context_of, file_of};
ghost use Rattle.pyd_translate.specs.Expressions as spec;

use crate::arguments::{copies, pair};
use crate::context::Context;
use crate::counting::behind;
use crate::draft::{Draft, emit, emit_value, operator, value_of};
use crate::expressions::build;
use crate::numbers::next;
use pyd_ir::{Arg, OpCode, Side, Work};
use pyd_tree::{CmpOp, Expr};
use pyd_value::{NoMemory, Value};

/// Which of the two an expression is.
#[derive(Clone, Copy)]
pub(crate) enum Junction {
    And,
    Or,
}

/// The first side where a value is true, else the second.
pub(crate) fn choose(
    at: &Context<'_>,
    test: Arg,
    yes: Side,
    no: Side,
    draft: &mut Draft,
) -> Result<Arg, NoMemory>
    ensures { IfOk result (λ a.
        Makes draft.old (spec.choose (context_of at.now) test yes no) draft.new (Some a)) }
{
    match copies(at.alloc, at.env) {
        Ok(env) => emit_value(at, Work::Pick { test, yes, no, env }, draft),
        Err(NoMemory) => {
            drop(test);
            drop(yes);
            drop(no);
            Err(NoMemory)
        }
    }
}

/// The test of a conditional expression whose first part has number `k`, and the choice.
#[cycle(build)]
pub(crate) fn build_conditional(
    at: &Context<'_>,
    k: u32,
    test: &Expr,
    first: &Expr,
    draft: &mut Draft,
) -> Result<Option<Arg>, NoMemory>
    ensures { IfOk result (λ got.
        Makes draft.old (drafts.conditional at.now test.now first.now k) draft.new got) }
{
    let second = behind(k, first)?;
    let third = behind(second, test)?;
    match build(at, second, test, draft)? {
        Some(value) => {
            let chosen = choose(at, value, Side::Expr(k), Side::Expr(third), draft)?;
            Ok(Some(chosen))
        }
        None => Ok(None),
    }
}

/// Expression number `whole`, an `and` or `or`, from its member `member` on, which is expression
/// number `k`.
#[cycle(build)]
pub(crate) fn build_members(
    at: &Context<'_>,
    junction: Junction,
    whole: u32,
    member: u32,
    k: u32,
    es: &[Expr],
    draft: &mut Draft,
) -> Result<Option<Arg>, NoMemory>
    ensures { IfOk result (λ got. Makes draft.old
        (drafts.members junction whole member (map (spec.unfolded (file_of at.now)) es.now) k
        (context_of at.now)) draft.new got) }
{
    let Some((e, others)) = es.split_first() else {
        return Ok(Some(of_none(junction)));
    };
    let behind = next(member)?;
    match build(at, k, e, draft)? {
        Some(value) => {
            if others.is_empty() {
                Ok(Some(value))
            } else {
                let chosen = choose_member(at, junction, whole, behind, value, draft)?;
                Ok(Some(chosen))
            }
        }
        None => Ok(None),
    }
}

/// What an `and` or `or` gives of no members.
fn of_none(junction: Junction) -> Arg
    ensures { result ≡ drafts.of_none junction }
{
    match junction {
        Junction::And => Arg::Known(Value::Bool(true)),
        Junction::Or => Arg::Known(Value::Bool(false)),
    }
}

/// The choice behind a member's value, which is given or goes on from a member on.
fn choose_member(
    at: &Context<'_>,
    junction: Junction,
    whole: u32,
    member: u32,
    value: Arg,
    draft: &mut Draft,
) -> Result<Arg, NoMemory>
    ensures { IfOk result (λ a. Makes draft.old
        (drafts.member_chosen junction whole member value (context_of at.now)) draft.new (Some a)) }
{
    match value.try_copy(at.alloc) {
        Ok(test) => {
            let left = Side::Tail {
                expr: whole,
                member,
                left: Arg::Known(Value::None),
            };
            match junction {
                Junction::And => choose(at, test, left, Side::Arg(value), draft),
                Junction::Or => choose(at, test, Side::Arg(value), left, draft),
            }
        }
        Err(NoMemory) => {
            drop(value);
            Err(NoMemory)
        }
    }
}

/// Expression number `whole`, a comparison, whose left operand is expression number `k`.
#[cycle(build)]
pub(crate) fn build_comparison(
    at: &Context<'_>,
    whole: u32,
    k: u32,
    first: &Expr,
    links: &[(CmpOp, Expr)],
    draft: &mut Draft,
) -> Result<Option<Arg>, NoMemory>
    ensures { IfOk result (λ got.
        Makes draft.old (drafts.comparison at.now first.now links.now whole k) draft.new got) }
{
    let behind = behind(k, first)?;
    match build(at, k, first, draft)? {
        Some(left) => {
            let made = build_comparisons(at, whole, 0, behind, &left, links, draft);
            drop(left);
            made
        }
        None => Ok(None),
    }
}

/// Expression number `whole`, a comparison, from its link `member` on, whose right operand is
/// expression number `k`, with its left operand.
#[cycle(build)]
pub(crate) fn build_comparisons(
    at: &Context<'_>,
    whole: u32,
    member: u32,
    k: u32,
    left: &Arg,
    links: &[(CmpOp, Expr)],
    draft: &mut Draft,
) -> Result<Option<Arg>, NoMemory>
    ensures { IfOk result (λ got. Makes draft.old
        (spec.compared whole member (drafts.unfolded_links (file_of at.now) links.now) k
        (context_of at.now) left.now) draft.new got) }
{
    let Some((link, others)) = links.split_first() else {
        return Ok(Some(Arg::Known(Value::Bool(true))));
    };
    let behind = next(member)?;
    match build(at, k, &link.1, draft)? {
        Some(right) => {
            if others.is_empty() {
                Ok(Some(compare_last(at, link.0, left, right, draft)?))
            } else {
                let chosen = compare(at, link.0, left, right, whole, behind, draft)?;
                Ok(Some(chosen))
            }
        }
        None => Ok(None),
    }
}

/// The last link of a comparison.
fn compare_last(
    at: &Context<'_>,
    op: CmpOp,
    left: &Arg,
    right: Arg,
    draft: &mut Draft,
) -> Result<Arg, NoMemory>
    ensures { IfOk result (λ a. Makes draft.old
        (drafts.link_compared op left.now right (context_of at.now)) draft.new (Some a)) }
{
    let args = pair(at.alloc, left, &right);
    drop(right);
    operator(at, OpCode::Compare(op), args?, draft)
}

/// A link, and behind it the choice between its value and the links from `member` on.
fn compare(
    at: &Context<'_>,
    op: CmpOp,
    left: &Arg,
    right: Arg,
    whole: u32,
    member: u32,
    draft: &mut Draft,
) -> Result<Arg, NoMemory>
    ensures { IfOk result (λ a. Makes draft.old
        (drafts.link_chosen op left.now right whole member (context_of at.now)) draft.new
        (Some a)) }
{
    match verdict(at, op, left, &right, draft) {
        Ok(id) => {
            let links = Side::Tail {
                expr: whole,
                member,
                left: right,
            };
            choose(at, value_of(id), links, Side::Arg(value_of(id)), draft)
        }
        Err(NoMemory) => {
            drop(right);
            Err(NoMemory)
        }
    }
}

/// The node of a comparison.
fn verdict(
    at: &Context<'_>,
    op: CmpOp,
    left: &Arg,
    right: &Arg,
    draft: &mut Draft,
) -> Result<u64, NoMemory>
    ensures { IfOk result (λ id. Makes draft.old
        (drafts.link_emitted op left.now right.now (context_of at.now)) draft.new (Some id)) }
{
    let args = pair(at.alloc, left, right)?;
    emit(
        at,
        Work::Op {
            op: OpCode::Compare(op),
            args,
        },
        draft,
    )
}
