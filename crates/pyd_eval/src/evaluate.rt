//! Expressions, evaluated from the left (Python Language Reference, section 6.16).
ghost use Rattle.std.specs.Prelude.{◌≡◌, map, IfOk};
ghost use Rattle.pyd_tree.specs.declared.expression.Expr.TheVariants as expression;
ghost use Rattle.pyd_meaning.specs.Expression.{meaning_of};
ghost use Rattle.pyd_meaning.specs.Setting.{place_of};
ghost use Rattle.pyd_eval.specs.Frames.{evaluation, names_of, setting};
ghost use Rattle.pyd_eval.specs.Given.{value_of, seen, Does};
ghost use Rattle.pyd_eval.specs.Junctions.{joined};
ghost use Rattle.pyd_eval.specs.Tails.{operation, operand_and_verdict, both_seen};
ghost use Rattle.pyd_eval.specs.Tails.{chain_tail, comparison_tail};

use crate::activation::Activation;
use crate::arguments::eval_all;
use crate::calls::eval_call;
use crate::got::Got;
use crate::junction::Junction;
use crate::operate::{apply_comparison, apply_to, apply_unary, tuple};
use crate::reading::read;
use crate::small::number_of_chain;
use crate::suffixes::eval_suffixed;
use pyd_tree::Expr;
use pyd_value::{BinOp, CmpOp, Fault, List, NoMemory, Text, UnOp, Value};

/// The value of an expression in a line, or the fault that ends it.
#[cycle(run)]
pub(crate) fn eval<'p: 'a, 'a>(
    on: &Activation<'p>,
    e: &'a Expr,
    line: u32,
    slots: &'a [Option<Value>],
    out: &mut List<Text>,
) -> Result<Result<Got<'a>, Fault>, NoMemory>
    ensures { IfOk result (λ got.
        Does out.old (evaluation on.now e.now line slots.now) out.new (seen got)) }
{
    match e {
        Expr::Lit(v) => Ok(Ok(Got::Lent(v))),
        Expr::Name(name) => Ok(read(on, name, line, slots)),
        Expr::Tuple(es) => eval_tuple(on, es.as_slice(), line, slots, out),
        Expr::Unary(op, e) => eval_unary(on, *op, e.get(), line, slots, out),
        Expr::Chain(first, links) => {
            eval_chain(on, first.get(), links.as_slice(), line, slots, out)
        }
        Expr::Power(base, exponent) => {
            eval_power(on, base.get(), exponent.get(), line, slots, out)
        }
        Expr::And(es) => eval_junction(on, Junction::And, es.as_slice(), line, slots, out),
        Expr::Or(es) => eval_junction(on, Junction::Or, es.as_slice(), line, slots, out),
        Expr::Compare(first, links) => {
            eval_comparison(on, first.get(), links.as_slice(), line, slots, out)
        }
        Expr::If(test, yes, no) => {
            eval_conditional(on, test.get(), yes.get(), no.get(), line, slots, out)
        }
        Expr::Call(name, args) => eval_call(on, name, args.as_slice(), line, slots, out),
        Expr::Suffixed(base, suffixes) => {
            eval_suffixed(on, base.get(), suffixes.as_slice(), line, slots, out)
        }
    }
}

#[cycle(run)]
fn eval_tuple<'p: 'a, 'a>(
    on: &Activation<'p>,
    es: &'a [Expr],
    line: u32,
    slots: &'a [Option<Value>],
    out: &mut List<Text>,
) -> Result<Result<Got<'a>, Fault>, NoMemory>
    ensures { IfOk result (λ got.
        Does out.old (evaluation on.now (expression.Tuple es.now) line slots.now)
        out.new (seen got)) }
{
    match eval_all(on, es, line, slots, out)? {
        Ok(values) => Ok(tuple(values, line)),
        Err(fault) => Ok(Err(fault)),
    }
}

#[cycle(run)]
fn eval_unary<'p: 'a, 'a>(
    on: &Activation<'p>,
    op: UnOp,
    e: &'a Expr,
    line: u32,
    slots: &'a [Option<Value>],
    out: &mut List<Text>,
) -> Result<Result<Got<'a>, Fault>, NoMemory>
    ensures { IfOk result (λ got.
        Does out.old (evaluation on.now (expression.Unary op e.now) line slots.now)
        out.new (seen got)) }
{
    match eval(on, e, line, slots, out)? {
        Ok(operand) => apply_unary(op, operand, line),
        Err(fault) => Ok(Err(fault)),
    }
}

/// The operators of a chain, from the left; in 64 bits where all its numbers fit.
#[cycle(run)]
fn eval_chain<'p: 'a, 'a>(
    on: &Activation<'p>,
    first: &'a Expr,
    links: &'a [(BinOp, Expr)],
    line: u32,
    slots: &'a [Option<Value>],
    out: &mut List<Text>,
) -> Result<Result<Got<'a>, Fault>, NoMemory>
    ensures { IfOk result (λ got.
        Does out.old (evaluation on.now (expression.Chain first.now links.now) line slots.now)
        out.new (seen got)) }
{
    if let Some(number) = number_of_chain(on, first, links, line, slots) {
        return Ok(Ok(Got::Own(number.to_value())));
    }
    match eval(on, first, line, slots, out)? {
        Ok(left) => eval_links(on, left, links, line, slots, out),
        Err(fault) => Ok(Err(fault)),
    }
}

/// The operators behind a value, from the left.
#[cycle(run)]
fn eval_links<'p: 'a, 'a>(
    on: &Activation<'p>,
    first: Got<'a>,
    links: &'a [(BinOp, Expr)],
    line: u32,
    slots: &'a [Option<Value>],
    out: &mut List<Text>,
) -> Result<Result<Got<'a>, Fault>, NoMemory>
    ensures { IfOk result (λ got.
        Does out.old (chain_tail on.now (value_of first.entry) links.now line slots.now)
        out.new (seen got)) }
{
    let mut left = first;
    for link in links {
        let value = eval_operation(on, link.0, &left, &link.1, line, slots, out);
        drop(left);
        match value? {
            Ok(value) => left = value,
            Err(fault) => return Ok(Err(fault)),
        }
    }
    Ok(Ok(left))
}

/// The right operand, and then the operator.
#[cycle(run)]
pub(crate) fn eval_operation<'p: 'a, 'a>(
    on: &Activation<'p>,
    op: BinOp,
    left: &Got<'_>,
    right: &'a Expr,
    line: u32,
    slots: &'a [Option<Value>],
    out: &mut List<Text>,
) -> Result<Result<Got<'a>, Fault>, NoMemory>
    ensures { IfOk result (λ got.
        Does out.old (operation on.now op (value_of left.now) right.now line slots.now)
        out.new (seen got)) }
{
    match eval(on, right, line, slots, out)? {
        Ok(right) => apply_to(on.alloc, op, left, right, line),
        Err(fault) => Ok(Err(fault)),
    }
}

/// The base, and then the exponent.
#[cycle(run)]
fn eval_power<'p: 'a, 'a>(
    on: &Activation<'p>,
    base: &'a Expr,
    exponent: &'a Expr,
    line: u32,
    slots: &'a [Option<Value>],
    out: &mut List<Text>,
) -> Result<Result<Got<'a>, Fault>, NoMemory>
    ensures { IfOk result (λ got.
        Does out.old (evaluation on.now (expression.Power base.now exponent.now) line slots.now)
        out.new (seen got)) }
{
    match eval(on, base, line, slots, out)? {
        Ok(left) => {
            let value = eval_operation(on, BinOp::Pow, &left, exponent, line, slots, out);
            drop(left);
            value
        }
        Err(fault) => Ok(Err(fault)),
    }
}

/// The members of an `and` or `or`, up to the first that ends it.
#[cycle(run)]
fn eval_junction<'p: 'a, 'a>(
    on: &Activation<'p>,
    junction: Junction,
    es: &'a [Expr],
    line: u32,
    slots: &'a [Option<Value>],
    out: &mut List<Text>,
) -> Result<Result<Got<'a>, Fault>, NoMemory>
    ensures { IfOk result (λ got.
        Does out.old (joined junction (map (meaning_of (setting on.now)) es.now) (place_of line)
        (names_of on.now slots.now)) out.new (seen got)) }
{
    let mut behind = es.len();
    for e in es {
        behind -= 1;
        match eval(on, e, line, slots, out)? {
            Ok(member) => {
                if behind == 0 {
                    return Ok(Ok(member));
                }
                if junction.is_ended_by(&member) {
                    return Ok(Ok(member));
                }
                drop(member);
            }
            Err(fault) => return Ok(Err(fault)),
        }
    }
    Ok(Ok(junction.of_none()))
}

/// The links of a comparison, up to the first that is false.
#[cycle(run)]
fn eval_comparison<'p: 'a, 'a>(
    on: &Activation<'p>,
    first: &'a Expr,
    links: &'a [(CmpOp, Expr)],
    line: u32,
    slots: &'a [Option<Value>],
    out: &mut List<Text>,
) -> Result<Result<Got<'a>, Fault>, NoMemory>
    ensures { IfOk result (λ got.
        Does out.old (evaluation on.now (expression.Compare first.now links.now) line slots.now)
        out.new (seen got)) }
{
    match eval(on, first, line, slots, out)? {
        Ok(left) => eval_comparisons(on, left, links, line, slots, out),
        Err(fault) => Ok(Err(fault)),
    }
}

/// The links behind a value, up to the first that is false.
#[cycle(run)]
fn eval_comparisons<'p: 'a, 'a>(
    on: &Activation<'p>,
    first: Got<'a>,
    links: &'a [(CmpOp, Expr)],
    line: u32,
    slots: &'a [Option<Value>],
    out: &mut List<Text>,
) -> Result<Result<Got<'a>, Fault>, NoMemory>
    ensures { IfOk result (λ got.
        Does out.old (comparison_tail on.now (value_of first.entry) links.now line slots.now)
        out.new (seen got)) }
{
    let mut left = first;
    let mut behind = links.len();
    for link in links {
        behind -= 1;
        let found = eval_link(on, &left, link, line, slots, out);
        drop(left);
        match found? {
            Ok((right, verdict)) => {
                if behind == 0 {
                    drop(right);
                    return Ok(Ok(verdict));
                }
                if !verdict.holds() {
                    drop(right);
                    return Ok(Ok(verdict));
                }
                drop(verdict);
                left = right;
            }
            Err(fault) => return Ok(Err(fault)),
        }
    }
    drop(left);
    Ok(Ok(Got::Own(Value::Bool(true))))
}

/// The right operand of a link, and then the value of its comparison.
#[cycle(run)]
fn eval_link<'p: 'a, 'a>(
    on: &Activation<'p>,
    left: &Got<'_>,
    link: &'a (CmpOp, Expr),
    line: u32,
    slots: &'a [Option<Value>],
    out: &mut List<Text>,
) -> Result<Result<(Got<'a>, Got<'a>), Fault>, NoMemory>
    ensures { IfOk result (λ got.
        Does out.old (operand_and_verdict on.now (value_of left.now) link.now line slots.now)
        out.new (both_seen got)) }
{
    match eval(on, &link.1, line, slots, out)? {
        Ok(right) => match apply_comparison(link.0, left, &right, line) {
            Ok(verdict) => Ok(Ok((right, verdict))),
            Err(fault) => {
                drop(right);
                Ok(Err(fault))
            }
        },
        Err(fault) => Ok(Err(fault)),
    }
}

/// The test, and then one of the sides.
#[cycle(run)]
fn eval_conditional<'p: 'a, 'a>(
    on: &Activation<'p>,
    test: &'a Expr,
    yes: &'a Expr,
    no: &'a Expr,
    line: u32,
    slots: &'a [Option<Value>],
    out: &mut List<Text>,
) -> Result<Result<Got<'a>, Fault>, NoMemory>
    ensures { IfOk result (λ got.
        Does out.old (evaluation on.now (expression.If test.now yes.now no.now) line slots.now)
        out.new (seen got)) }
{
    match eval(on, test, line, slots, out)? {
        Ok(value) => {
            if value.is_true() {
                eval(on, yes, line, slots, out)
            } else {
                eval(on, no, line, slots, out)
            }
        }
        Err(fault) => Ok(Err(fault)),
    }
}
