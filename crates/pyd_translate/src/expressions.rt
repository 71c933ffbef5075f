//! The nodes of expressions, in order of evaluation (Python Language Reference, section 6.16).
ghost use Rattle.std.specs.Prelude.{◌≡◌, map, IfOk};
ghost use Rattle.pyd_translate.specs.Drafts as drafts;
ghost use Rattle.pyd_translate.specs.Drafts.{Makes, context_of, file_of};
ghost use Rattle.pyd_translate.specs.Expressions as spec;

use crate::arguments::{one, pair};
use crate::brackets::build_suffixed;
use crate::calls::build_call;
use crate::choices::{Junction, build_comparison, build_conditional, build_members};
use crate::context::Context;
use crate::counting::behind;
use crate::draft::{Draft, operator};
use crate::names::name_operand;
use crate::numbers::next;
use pyd_ir::{Arg, OpCode};
use pyd_tree::{BinOp, Expr, UnOp};
use pyd_value::{List, NoMemory, try_copy};

/// The nodes of expression number `k` and its value, or none behind a Stop.
#[cycle(build)]
pub fn build(at: &Context<'_>, k: u32, e: &Expr, draft: &mut Draft) -> Result<Option<Arg>, NoMemory>
    ensures { IfOk result (λ got. Makes draft.old
        (spec.expression_unfolds (file_of at.now) e.now k (context_of at.now)) draft.new got) }
{
    let part = next(k)?;
    match e {
        Expr::Lit(v) => Ok(Some(Arg::Known(try_copy(at.alloc, v)?))),
        Expr::Name(name) => name_operand(at, name, draft),
        Expr::Tuple(es) => build_tuple(at, part, es.as_slice(), draft),
        Expr::Unary(op, e) => build_unary(at, part, *op, e.get(), draft),
        Expr::Chain(first, links) => build_chain(at, part, first.get(), links.as_slice(), draft),
        Expr::Power(base, exponent) => build_power(at, part, base.get(), exponent.get(), draft),
        Expr::And(es) => build_members(at, Junction::And, k, 0, part, es.as_slice(), draft),
        Expr::Or(es) => build_members(at, Junction::Or, k, 0, part, es.as_slice(), draft),
        Expr::Compare(first, links) => {
            build_comparison(at, k, part, first.get(), links.as_slice(), draft)
        }
        Expr::If(test, first, _second) => build_conditional(
            at,
            part,
            test.get(),
            first.get(),
            draft,
        ),
        Expr::Call(name, args) => build_call(at, part, name, args.as_slice(), draft),
        Expr::Suffixed(base, suffixes) => {
            build_suffixed(at, part, base.get(), suffixes.as_slice(), draft)
        }
    }
}

/// Expressions from number `first` on, each in turn, and all their values.
#[cycle(build)]
pub(crate) fn build_each(
    at: &Context<'_>,
    first: u32,
    es: &[Expr],
    draft: &mut Draft,
) -> Result<Option<List<Arg>>, NoMemory>
    ensures { IfOk result (λ got. Makes draft.old
        (spec.each (map (spec.unfolded (file_of at.now)) es.now) first (context_of at.now))
        draft.new got) }
{
    let mut args = List::new(at.alloc);
    let mut k = first;
    for e in es {
        match build(at, k, e, draft)? {
            Some(value) => args.add(value)?,
            None => return Ok(None),
        }
        k = behind(k, e)?;
    }
    Ok(Some(args))
}

#[cycle(build)]
fn build_tuple(
    at: &Context<'_>,
    k: u32,
    es: &[Expr],
    draft: &mut Draft,
) -> Result<Option<Arg>, NoMemory>
    ensures { IfOk result (λ got.
        Makes draft.old (drafts.tuple at.now es.now k) draft.new got) }
{
    match build_each(at, k, es, draft)? {
        Some(args) => Ok(Some(operator(at, OpCode::Tuple, args, draft)?)),
        None => Ok(None),
    }
}

#[cycle(build)]
fn build_unary(
    at: &Context<'_>,
    k: u32,
    op: UnOp,
    e: &Expr,
    draft: &mut Draft,
) -> Result<Option<Arg>, NoMemory>
    ensures { IfOk result (λ got.
        Makes draft.old (drafts.unary at.now op e.now k) draft.new got) }
{
    match build(at, k, e, draft)? {
        Some(value) => {
            let args = one(at.alloc, value)?;
            Ok(Some(operator(at, OpCode::Unary(op), args, draft)?))
        }
        None => Ok(None),
    }
}

/// An operand, and then the operators behind it.
#[cycle(build)]
fn build_chain(
    at: &Context<'_>,
    k: u32,
    first: &Expr,
    links: &[(BinOp, Expr)],
    draft: &mut Draft,
) -> Result<Option<Arg>, NoMemory>
    ensures { IfOk result (λ got.
        Makes draft.old (drafts.chain at.now first.now links.now k) draft.new got) }
{
    let behind = behind(k, first)?;
    match build(at, k, first, draft)? {
        Some(value) => build_links(at, behind, value, links, draft),
        None => Ok(None),
    }
}

/// The operators behind a value, from the left.
#[cycle(build)]
fn build_links(
    at: &Context<'_>,
    first: u32,
    value: Arg,
    links: &[(BinOp, Expr)],
    draft: &mut Draft,
) -> Result<Option<Arg>, NoMemory>
    ensures { IfOk result (λ got. Makes draft.old
        (spec.chained (drafts.unfolded_operands (file_of at.now) links.now) first
        (context_of at.now) value) draft.new got) }
{
    let mut left = value;
    let mut k = first;
    for link in links {
        let made = build_operation(at, k, link.0, &left, &link.1, draft);
        drop(left);
        match made? {
            Some(value) => left = value,
            None => return Ok(None),
        }
        match behind(k, &link.1) {
            Ok(behind) => k = behind,
            Err(NoMemory) => {
                drop(left);
                return Err(NoMemory);
            }
        }
    }
    Ok(Some(left))
}

/// The right operand, which is expression number `k`, and then the operator.
#[cycle(build)]
pub(crate) fn build_operation(
    at: &Context<'_>,
    k: u32,
    op: BinOp,
    left: &Arg,
    right: &Expr,
    draft: &mut Draft,
) -> Result<Option<Arg>, NoMemory>
    ensures { IfOk result (λ got.
        Makes draft.old (drafts.operation at.now op left.now right.now k) draft.new got) }
{
    match build(at, k, right, draft)? {
        Some(right) => {
            let args = pair(at.alloc, left, &right);
            drop(right);
            Ok(Some(operator(at, OpCode::Binary(op), args?, draft)?))
        }
        None => Ok(None),
    }
}

/// The base, and then the exponent.
#[cycle(build)]
fn build_power(
    at: &Context<'_>,
    k: u32,
    base: &Expr,
    exponent: &Expr,
    draft: &mut Draft,
) -> Result<Option<Arg>, NoMemory>
    ensures { IfOk result (λ got.
        Makes draft.old (drafts.power at.now base.now exponent.now k) draft.new got) }
{
    let behind = behind(k, base)?;
    match build(at, k, base, draft)? {
        Some(left) => {
            let made = build_operation(at, behind, BinOp::Pow, &left, exponent, draft);
            drop(left);
            made
        }
        None => Ok(None),
    }
}
