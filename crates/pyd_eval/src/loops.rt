//! Loops (Python Language Reference, sections 8.2 and 8.3), turn after turn, within a limit.
ghost use Rattle.std.specs.Prelude.{◌≡◌, IfOk, true};
ghost use Rattle.pyd_tree.specs.declared.statement.What.TheVariants as what;
ghost use Rattle.pyd_names.specs.Binding as binding;
ghost use Rattle.pyd_meaning.specs.Loops.{is_range};
ghost use Rattle.pyd_eval.specs.Frames.{names_of, setting, Holds};
ghost use Rattle.pyd_eval.specs.Given.{Does};
ghost use Rattle.pyd_eval.specs.Left.{reached};
ghost use Rattle.pyd_eval.specs.Steps.{does_what};
ghost use Rattle.pyd_eval.specs.Turns.{does_turn, does_items, does_numbers, does_for};

use crate::activation::Activation;
use crate::binding::assign;
use crate::completion::Completion;
use crate::evaluate::eval;
use crate::execute::exec_block;
use crate::iteration::{calls_range, has_number, indexed, next_number, range_span};
use pyd_ops::{Span, item_at};
use pyd_tree::{Block, Expr, Targets};
use pyd_value::{Fault, Kind, Limit, List, NoMemory, Text, Value};

/// The test, and as long as it is true the suite and the test again.
#[cycle(run)]
pub(crate) fn exec_while(
    on: &Activation<'_>,
    test: &Expr,
    body: &Block,
    line: u32,
    slots: &mut [Option<Value>],
    out: &mut List<Text>,
) -> Result<Result<Completion, Fault>, NoMemory>
    requires { Holds on.now slots.old (binding.names_of (binding.bindings body.now)) }
    ensures { IfOk result (λ how.
        Does out.old (does_what on.now (what.While test.now body.now) line slots.old) out.new
        (reached (names_of on.now slots.new) how)) }
{
    let mut left = on.limits.turns;
    'turns: loop {
        match eval(on, test, line, slots, out)? {
            Ok(value) => {
                if !value.is_true() {
                    return Ok(Ok(Completion::Normal));
                }
            }
            Err(fault) => return Ok(Err(fault)),
        }
        if left == 0 {
            return Ok(Err(Fault::Limit(Limit::Turn, line)));
        }
        left -= 1;
        match exec_block(on, body, slots, out)? {
            Ok(how) => {
                if let Some(exit) = how.exit() {
                    return Ok(Ok(exit));
                }
            }
            Err(fault) => return Ok(Err(fault)),
        }
    }
}

/// The iterable once, and then for each of its items the targets and the suite.
#[cycle(run)]
pub(crate) fn exec_for(
    on: &Activation<'_>,
    targets: &Targets,
    e: &Expr,
    body: &Block,
    line: u32,
    slots: &mut [Option<Value>],
    out: &mut List<Text>,
) -> Result<Result<Completion, Fault>, NoMemory>
    requires targets { Holds on.now slots.old targets.now.names }
    requires body { Holds on.now slots.old (binding.names_of (binding.bindings body.now)) }
    ensures { IfOk result (λ how.
        Does out.old (does_what on.now (what.For targets.now e.now body.now) line slots.old)
        out.new (reached (names_of on.now slots.new) how)) }
{
    match eval(on, e, line, slots, out)? {
        Ok(value) => {
            let over = value.into_value(on.alloc)?;
            exec_over(on, targets, e, body, over, line, slots, out)
        }
        Err(fault) => Ok(Err(fault)),
    }
}

/// The turns over a value, which is dropped: the numbers of a range, or the items of a text or tuple.
#[cycle(run)]
fn exec_over(
    on: &Activation<'_>,
    targets: &Targets,
    e: &Expr,
    body: &Block,
    over: Value,
    line: u32,
    slots: &mut [Option<Value>],
    out: &mut List<Text>,
) -> Result<Result<Completion, Fault>, NoMemory>
    requires targets { Holds on.now slots.old targets.now.names }
    requires body { Holds on.now slots.old (binding.names_of (binding.bindings body.now)) }
    ensures { IfOk result (λ how.
        Does out.old (does_for on.now targets.now e.now body.now over line slots.old)
        out.new (reached (names_of on.now slots.new) how)) }
{
    if calls_range(on, e) {
        let span = range_span(&over);
        drop(over);
        return match span {
            Some(span) => exec_numbers(on, targets, body, span, line, slots, out),
            None => Ok(Err(Fault::Raised(Kind::TypeError, line))),
        };
    }
    match indexed(on.alloc, over)? {
        Some(over) => {
            let answer = exec_items(on, targets, body, &over, line, slots, out);
            drop(over);
            answer
        }
        None => Ok(Err(Fault::Raised(Kind::TypeError, line))),
    }
}

/// The turns over the items of a text or tuple.
#[cycle(run)]
fn exec_items(
    on: &Activation<'_>,
    targets: &Targets,
    body: &Block,
    over: &Value,
    line: u32,
    slots: &mut [Option<Value>],
    out: &mut List<Text>,
) -> Result<Result<Completion, Fault>, NoMemory>
    requires targets { Holds on.now slots.old targets.now.names }
    requires body { Holds on.now slots.old (binding.names_of (binding.bindings body.now)) }
    ensures { IfOk result (λ how.
        Does out.old (does_items on.now targets.now body.now over.now line slots.old)
        out.new (reached (names_of on.now slots.new) how)) }
{
    let mut turn = 0;
    'turns: while let Some(item) = item_at(on.alloc, over, turn)? {
        if turn == on.limits.turns {
            drop(item);
            return Ok(Err(Fault::Limit(Limit::Turn, line)));
        }
        turn += 1;
        match exec_turn(on, targets, body, item, line, slots, out)? {
            Ok(how) => {
                if let Some(exit) = how.exit() {
                    return Ok(Ok(exit));
                }
            }
            Err(fault) => return Ok(Err(fault)),
        }
    }
    Ok(Ok(Completion::Normal))
}

/// The turns over the numbers of a range, all within 128 bits.
#[cycle(run)]
fn exec_numbers(
    on: &Activation<'_>,
    targets: &Targets,
    body: &Block,
    span: Span,
    line: u32,
    slots: &mut [Option<Value>],
    out: &mut List<Text>,
) -> Result<Result<Completion, Fault>, NoMemory>
    requires range { is_range span span.count ≡ true }
    requires targets { Holds on.now slots.old targets.now.names }
    requires body { Holds on.now slots.old (binding.names_of (binding.bindings body.now)) }
    ensures { IfOk result (λ how.
        Does out.old (does_numbers on.now targets.now body.now span line slots.old)
        out.new (reached (names_of on.now slots.new) how)) }
{
    let mut turn = 0;
    let mut number = span.from;
    'turns: while has_number(&span, turn) {
        if turn == on.limits.turns {
            return Ok(Err(Fault::Limit(Limit::Turn, line)));
        }
        turn += 1;
        match exec_turn(on, targets, body, Value::Int(number), line, slots, out)? {
            Ok(how) => {
                if let Some(exit) = how.exit() {
                    return Ok(Ok(exit));
                }
            }
            Err(fault) => return Ok(Err(fault)),
        }
        number = next_number(&span, number);
    }
    Ok(Ok(Completion::Normal))
}

/// The targets, bound to an item, and then the suite.
#[cycle(run)]
fn exec_turn(
    on: &Activation<'_>,
    targets: &Targets,
    body: &Block,
    item: Value,
    line: u32,
    slots: &mut [Option<Value>],
    out: &mut List<Text>,
) -> Result<Result<Completion, Fault>, NoMemory>
    requires targets { Holds on.now slots.old targets.now.names }
    requires body { Holds on.now slots.old (binding.names_of (binding.bindings body.now)) }
    ensures { IfOk result (λ how.
        Does out.old (does_turn on.now targets.now body.now item line slots.old)
        out.new (reached (names_of on.now slots.new) how)) }
{
    match assign(on, slots, targets, item, line)? {
        Ok(()) => exec_block(on, body, slots, out),
        Err(fault) => Ok(Err(fault)),
    }
}
