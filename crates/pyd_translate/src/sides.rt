//! The nodes of a side of a choice, and of what is left of an `and`, an `or` or a comparison.
ghost use Rattle.std.specs.Prelude.{◌≡◌, take, drop, IfOk};
ghost use Rattle.std.specs.Option.{option_copied};
ghost use Rattle.pyd_tree.specs.declared.expression.Expr.{out-Expr};
ghost use Rattle.pyd_translate.specs.Drafts as drafts;
ghost use Rattle.pyd_translate.specs.Drafts.{Makes, context_of, file_of};
ghost use Rattle.pyd_translate.specs.Sides as spec;

use crate::choices::{Junction, build_comparisons, build_members};
use crate::context::Context;
use crate::counting::{behind, count_compared, count_each};
use crate::draft::{Draft, stop_by};
use crate::expressions::build;
use crate::numbers::{next, plus};
use pyd_ir::{Arg, Side};
use pyd_tree::{CmpOp, Expr};
use pyd_value::{Kind, NoMemory};

/// The nodes of a side and its value, or none behind a Stop.
pub fn build_side(at: &Context<'_>, side: &Side, draft: &mut Draft) -> Result<Option<Arg>, NoMemory>
    ensures { IfOk result (λ got. Makes draft.old
        (spec.side_unfolds (file_of at.now) side.now (context_of at.now)) draft.new got) }
{
    match side {
        Side::Arg(a) => Ok(Some(a.try_copy(at.alloc)?)),
        Side::Expr(k) => build_numbered(at, *k, at.expression(*k), draft),
        Side::Tail { expr, member, left } => {
            build_left(at, *expr, *member, left, at.expression(*expr), draft)
        }
    }
}

/// An expression that a number may name.
fn build_numbered(
    at: &Context<'_>,
    k: u32,
    e: Option<&Expr>,
    draft: &mut Draft,
) -> Result<Option<Arg>, NoMemory>
    ensures { IfOk result (λ got. Makes draft.old
        (spec.unfold_numbered (file_of at.now) (option_copied e.entry) k
        (context_of at.now)) draft.new got) }
{
    match e {
        Some(e) => build(at, k, e, draft),
        None => {
            stop_by(at, Kind::NameError, draft)?;
            Ok(None)
        }
    }
}

/// What is left of an expression that a number may name.
fn build_left(
    at: &Context<'_>,
    whole: u32,
    member: u32,
    left: &Arg,
    e: Option<&Expr>,
    draft: &mut Draft,
) -> Result<Option<Arg>, NoMemory>
    ensures { IfOk result (λ got. Makes draft.old
        (spec.left_numbered (file_of at.now) (option_copied e.entry) whole member
        left.now (context_of at.now)) draft.new got) }
{
    match e {
        Some(e) => build_left_of(at, whole, member, left, e, draft),
        None => {
            stop_by(at, Kind::NameError, draft)?;
            Ok(None)
        }
    }
}

/// What is left of an expression; nothing is left of one that is no `and`, `or` or comparison.
fn build_left_of(
    at: &Context<'_>,
    whole: u32,
    member: u32,
    left: &Arg,
    e: &Expr,
    draft: &mut Draft,
) -> Result<Option<Arg>, NoMemory>
    ensures { IfOk result (λ got. Makes draft.old
        (spec.left_at (file_of at.now) (out-Expr e.now) whole member left.now (context_of at.now))
        draft.new got) }
{
    match e {
        Expr::And(es) => build_members_left(at, Junction::And, whole, member, es.as_slice(), draft),
        Expr::Or(es) => build_members_left(at, Junction::Or, whole, member, es.as_slice(), draft),
        Expr::Compare(first, links) => {
            build_links_left(
                at,
                whole,
                member,
                left,
                first.get(),
                links.as_slice(),
                draft,
            )
        }
        Expr::Lit(_)
        | Expr::Name(_)
        | Expr::Tuple(_)
        | Expr::Unary(_, _)
        | Expr::Chain(_, _)
        | Expr::Power(_, _)
        | Expr::If(_, _, _)
        | Expr::Call(_, _)
        | Expr::Suffixed(_, _) => {
            stop_by(at, Kind::NameError, draft)?;
            Ok(None)
        }
    }
}

/// An `and` or `or` from a member on.
fn build_members_left(
    at: &Context<'_>,
    junction: Junction,
    whole: u32,
    member: u32,
    es: &[Expr],
    draft: &mut Draft,
) -> Result<Option<Arg>, NoMemory>
    ensures { IfOk result (λ got. Makes draft.old
        (drafts.members_left at.now junction whole member es.now) draft.new got) }
{
    let k = plus(next(whole)?, count_each(before(es, member))?)?;
    build_members(at, junction, whole, member, k, from(es, member), draft)
}

/// A comparison from a link on, with its left operand.
fn build_links_left(
    at: &Context<'_>,
    whole: u32,
    member: u32,
    left: &Arg,
    first: &Expr,
    links: &[(CmpOp, Expr)],
    draft: &mut Draft,
) -> Result<Option<Arg>, NoMemory>
    ensures { IfOk result (λ got. Makes draft.old
        (drafts.links_left at.now whole member left.now first.now links.now) draft.new got) }
{
    let begin = behind(next(whole)?, first)?;
    let k = plus(begin, count_compared(before(links, member))?)?;
    build_comparisons(at, whole, member, k, left, from(links, member), draft)
}

/// The items before a place.
pub(crate) fn before<T>(items: &[T], at: u32) -> &[T]
    ensures { result.now ≡ take at items.now }
{
    let at = at as usize;
    if at < items.len() {
        &items[..at]
    } else {
        items
    }
}

/// The items from a place on.
fn from<T>(items: &[T], at: u32) -> &[T]
    ensures { result.now ≡ drop at items.now }
{
    let at = at as usize;
    if at < items.len() { &items[at..] } else { &[] }
}
