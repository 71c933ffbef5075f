//! Indices and slices behind a value (Python Language Reference, sections 6.3.2 and 6.3.3).
ghost use Rattle.std.specs.Prelude.{◌≡◌, ◌∷◌, ◌++◌, map, option_map, IfOk};
ghost use Rattle.pyd_translate.specs.Drafts as drafts;
ghost use Rattle.pyd_translate.specs.Drafts.{Makes, context_of, file_of};
ghost use Rattle.pyd_translate.specs.Expressions as spec;

use crate::arguments::{append, one, pair};
use crate::context::Context;
use crate::counting::{behind, behind_bound, behind_suffix};
use crate::draft::{Draft, operator};
use crate::expressions::build;
use pyd_ir::{Arg, OpCode};
use pyd_tree::{Expr, Suffix};
use pyd_value::{List, NoMemory};

/// Expression number `k`, and then the brackets behind it.
#[cycle(build)]
pub(crate) fn build_suffixed(
    at: &Context<'_>,
    k: u32,
    base: &Expr,
    suffixes: &[Suffix],
    draft: &mut Draft,
) -> Result<Option<Arg>, NoMemory>
    ensures { IfOk result (λ got.
        Makes draft.old (drafts.suffixed at.now base.now suffixes.now k) draft.new got) }
{
    let behind = behind(k, base)?;
    match build(at, k, base, draft)? {
        Some(value) => build_suffixes(at, behind, value, suffixes, draft),
        None => Ok(None),
    }
}

/// The brackets behind a value, from the left.
#[cycle(build)]
fn build_suffixes(
    at: &Context<'_>,
    first: u32,
    value: Arg,
    suffixes: &[Suffix],
    draft: &mut Draft,
) -> Result<Option<Arg>, NoMemory>
    ensures { IfOk result (λ got. Makes draft.old
        (spec.suffixed (map (spec.unfolded_suffix (file_of at.now)) suffixes.now) first
        (context_of at.now) value) draft.new got) }
{
    let mut base = value;
    let mut k = first;
    for suffix in suffixes {
        let made = build_suffix(at, k, &base, suffix, draft);
        drop(base);
        match made? {
            Some(value) => base = value,
            None => return Ok(None),
        }
        match behind_suffix(k, suffix) {
            Ok(behind) => k = behind,
            Err(NoMemory) => {
                drop(base);
                return Err(NoMemory);
            }
        }
    }
    Ok(Some(base))
}

/// What stands in one pair of brackets behind a value.
#[cycle(build)]
fn build_suffix(
    at: &Context<'_>,
    k: u32,
    base: &Arg,
    suffix: &Suffix,
    draft: &mut Draft,
) -> Result<Option<Arg>, NoMemory>
    ensures { IfOk result (λ got. Makes draft.old
        ((spec.unfolded_suffix (file_of at.now) suffix.now).build k (context_of at.now) base.now)
        draft.new got) }
{
    match suffix {
        Suffix::Index(e) => build_index(at, k, base, e, draft),
        Suffix::Slice(low, high) => build_slice(at, k, base, low, high, draft),
    }
}

#[cycle(build)]
fn build_index(
    at: &Context<'_>,
    k: u32,
    base: &Arg,
    e: &Expr,
    draft: &mut Draft,
) -> Result<Option<Arg>, NoMemory>
    ensures { IfOk result (λ got.
        Makes draft.old (drafts.indexed at.now base.now e.now k) draft.new got) }
{
    match build(at, k, e, draft)? {
        Some(index) => {
            let args = pair(at.alloc, base, &index);
            drop(index);
            Ok(Some(operator(at, OpCode::Index, args?, draft)?))
        }
        None => Ok(None),
    }
}

/// The lower bound, the upper one, and then the part between them.
#[cycle(build)]
fn build_slice(
    at: &Context<'_>,
    k: u32,
    base: &Arg,
    low: &Option<Expr>,
    high: &Option<Expr>,
    draft: &mut Draft,
) -> Result<Option<Arg>, NoMemory>
    ensures { IfOk result (λ got.
        Makes draft.old (drafts.sliced at.now base.now low.now high.now k) draft.new got) }
{
    let behind = behind_bound(k, low)?;
    let Some(lower) = build_bound(at, k, low, draft)? else {
        return Ok(None);
    };
    let Some(upper) = build_bound(at, behind, high, draft)? else {
        return Ok(None);
    };
    let args = bounded(at, base, &lower, &upper)?;
    let op = OpCode::Slice {
        low: low.is_some(),
        high: high.is_some(),
    };
    Ok(Some(operator(at, op, args, draft)?))
}

/// A value and its bounds.
fn bounded(
    at: &Context<'_>,
    base: &Arg,
    low: &List<Arg>,
    high: &List<Arg>,
) -> Result<List<Arg>, NoMemory>
    ensures { IfOk result (λ args. args ≡ base.now ∷ low.now ++ high.now) }
{
    let mut args = one(at.alloc, base.try_copy(at.alloc)?)?;
    append(at.alloc, &mut args, low.as_slice())?;
    append(at.alloc, &mut args, high.as_slice())?;
    Ok(args)
}

/// A bound that may be missing.
#[cycle(build)]
fn build_bound(
    at: &Context<'_>,
    k: u32,
    bound: &Option<Expr>,
    draft: &mut Draft,
) -> Result<Option<List<Arg>>, NoMemory>
    ensures { IfOk result (λ got. Makes draft.old
        (spec.bound (option_map (spec.unfolded (file_of at.now)) bound.now) k (context_of at.now))
        draft.new got) }
{
    match bound {
        Some(e) => match build(at, k, e, draft)? {
            Some(value) => Ok(Some(one(at.alloc, value)?)),
            None => Ok(None),
        },
        None => Ok(Some(List::new(at.alloc))),
    }
}
