//! Indices and slices behind a value (Python Language Reference, sections 6.3.2 and 6.3.3).
ghost use Rattle.std.specs.Prelude.{◌≡◌, option_map, IfOk};
ghost use Rattle.pyd_tree.specs.declared.expression.Expr.TheVariants as expression;
ghost use Rattle.pyd_tree.specs.declared.expression.Suffix.TheVariants as suffix;
ghost use Rattle.pyd_meaning.specs.Expression.{meaning_of, suffix_of, optional};
ghost use Rattle.pyd_meaning.specs.Setting.{place_of};
ghost use Rattle.pyd_eval.specs.Frames.{evaluation, names_of, setting};
ghost use Rattle.pyd_eval.specs.Given.{value_of, seen, Does};
ghost use Rattle.pyd_eval.specs.Tails.{suffix_tail};

use crate::activation::Activation;
use crate::evaluate::eval;
use crate::got::Got;
use crate::operate::{apply_index, apply_slice};
use pyd_tree::{Expr, Suffix};
use pyd_value::{Fault, List, NoMemory, Text, Value};

#[cycle(run)]
pub(crate) fn eval_suffixed<'p: 'a, 'a>(
    on: &Activation<'p>,
    base: &'a Expr,
    suffixes: &'a [Suffix],
    line: u32,
    slots: &'a [Option<Value>],
    out: &mut List<Text>,
) -> Result<Result<Got<'a>, Fault>, NoMemory>
    ensures { IfOk result (λ got.
        Does out.old (evaluation on.now (expression.Suffixed base.now suffixes.now) line slots.now)
        out.new (seen got)) }
{
    match eval(on, base, line, slots, out)? {
        Ok(base) => eval_suffixes(on, base, suffixes, line, slots, out),
        Err(fault) => Ok(Err(fault)),
    }
}

/// The brackets behind a value, from the left.
#[cycle(run)]
fn eval_suffixes<'p: 'a, 'a>(
    on: &Activation<'p>,
    first: Got<'a>,
    suffixes: &'a [Suffix],
    line: u32,
    slots: &'a [Option<Value>],
    out: &mut List<Text>,
) -> Result<Result<Got<'a>, Fault>, NoMemory>
    ensures { IfOk result (λ got.
        Does out.old (suffix_tail on.now (value_of first.entry) suffixes.now line slots.now)
        out.new (seen got)) }
{
    let mut base = first;
    for suffix in suffixes {
        let value = eval_suffix(on, &base, suffix, line, slots, out);
        drop(base);
        match value? {
            Ok(value) => base = value,
            Err(fault) => return Ok(Err(fault)),
        }
    }
    Ok(Ok(base))
}

/// What stands in one pair of brackets behind a value.
#[cycle(run)]
fn eval_suffix<'p: 'a, 'a>(
    on: &Activation<'p>,
    base: &Got<'_>,
    suffix: &'a Suffix,
    line: u32,
    slots: &'a [Option<Value>],
    out: &mut List<Text>,
) -> Result<Result<Got<'a>, Fault>, NoMemory>
    ensures { IfOk result (λ got.
        Does out.old (suffix_of (setting on.now) suffix.now (value_of base.now) (place_of line)
        (names_of on.now slots.now)) out.new (seen got)) }
{
    match suffix {
        Suffix::Index(e) => match eval(on, e, line, slots, out)? {
            Ok(at) => apply_index(on.alloc, base, at, line),
            Err(fault) => Ok(Err(fault)),
        },
        Suffix::Slice(low, high) => eval_slice(on, base, low, high, line, slots, out),
    }
}

/// The lower bound, the upper one, and then the part between them.
#[cycle(run)]
fn eval_slice<'p: 'a, 'a>(
    on: &Activation<'p>,
    base: &Got<'_>,
    low: &'a Option<Expr>,
    high: &'a Option<Expr>,
    line: u32,
    slots: &'a [Option<Value>],
    out: &mut List<Text>,
) -> Result<Result<Got<'a>, Fault>, NoMemory>
    ensures { IfOk result (λ got.
        Does out.old (suffix_of (setting on.now) (suffix.Slice low.now high.now)
        (value_of base.now) (place_of line) (names_of on.now slots.now)) out.new (seen got)) }
{
    match eval_bound(on, low, line, slots, out)? {
        Ok(low) => match eval_bound(on, high, line, slots, out) {
            Ok(Ok(high)) => apply_slice(on.alloc, base, low, high, line),
            Ok(Err(fault)) => {
                drop(low);
                Ok(Err(fault))
            }
            Err(NoMemory) => {
                drop(low);
                Err(NoMemory)
            }
        },
        Err(fault) => Ok(Err(fault)),
    }
}

/// A bound that may be missing.
#[cycle(run)]
fn eval_bound<'p: 'a, 'a>(
    on: &Activation<'p>,
    bound: &'a Option<Expr>,
    line: u32,
    slots: &'a [Option<Value>],
    out: &mut List<Text>,
) -> Result<Result<Option<Value>, Fault>, NoMemory>
    ensures { IfOk result (λ got.
        Does out.old (optional (option_map (meaning_of (setting on.now)) bound.now) (place_of line)
        (names_of on.now slots.now)) out.new got) }
{
    match bound {
        Some(e) => match eval(on, e, line, slots, out)? {
            Ok(value) => Ok(Ok(Some(value.into_value(on.alloc)?))),
            Err(fault) => Ok(Err(fault)),
        },
        None => Ok(Ok(None)),
    }
}
