//! The pieces of a derivation, from its last step to its first.
ghost use Rattle.std.specs.Prelude.{◌≡◌, ◌∷◌, ◌≤◌, ◌<◌, length, drop, All, IfOk};
ghost use Rattle.pyd_derivation.specs.Forms.{arity, apply};
ghost use Rattle.pyd_derivation.specs.Makings.{action, expression_action, file_action, statement_action};
ghost use Rattle.pyd_derivation.specs.Productions.{grammar};
ghost use Rattle.pyd_derivation.specs.Derivation.{line_of};
ghost use Rattle.pyd_derivation.specs.Reading.{read_back, shifts, Back, MayBack, IsKnown};

use crate::assignments::{assign, augment, for_loop, more_targets, simple, target_comma};
use crate::atoms::{arguments, constant, group, int, name, text};
use crate::expressions::{and_test, comma, condition, member, not_test, or_test, test, tests};
use crate::items::{
    decorated, end, function, function_item, import, items, names, params, second, statement_item,
    stmts, suite,
};
use crate::making::{ExpressionMaking, FileMaking, Making, StatementMaking, making_of};
use crate::operators::{
    bound, chain, compare, compared, link, not_in, power, sub, suffix, suffixed, unary, upper,
};
use crate::piece::Piece;
use crate::pieces::pop;
use crate::stack::Stack;
use crate::statements::{
    assert_line, break_line, conditional, continue_line, elifs, pass_line, return_line, while_loop,
};
use pyd_lex::Token;
use pyd_syntax::Step;
use pyd_value::{Boxed, NoMemory};
use std::alloc::Global;

/// The line of the token at this place.
fn line_at(tokens: &[Token], at: usize) -> u32
    ensures { result ≡ line_of (drop at tokens.now) }
{
    if at < tokens.len() {
        tokens[at].line
    } else {
        0
    }
}

/// What is made of the parts in front by a production of files, functions and suites.
#[inline(never)]
fn make_file(
    alloc: Global,
    bytes: &[u8],
    making: FileMaking,
    pieces: &mut Stack<Piece>,
    line: u32,
) -> Result<Piece, NoMemory>
    ensures made { IfOk result (λ v. v ≡ apply (file_action making) bytes.now line pieces.old) }
    ensures rest { IfOk result (λ _. pieces.new ≡ drop (arity (file_action making)) pieces.old) }
{
    match making {
        FileMaking::End => Ok(end(alloc, pieces)),
        FileMaking::Items => items(alloc, pieces),
        FileMaking::StatementItem => statement_item(alloc, pieces),
        FileMaking::FunctionItem => function_item(alloc, pieces),
        FileMaking::Import => import(alloc, bytes, pieces, line),
        FileMaking::Names => names(alloc, bytes, pieces, line),
        FileMaking::Decorated => decorated(alloc, bytes, pieces, line),
        FileMaking::Function => function(alloc, bytes, pieces, line),
        FileMaking::Params => params(alloc, bytes, pieces, line),
        FileMaking::Stmts => stmts(alloc, pieces),
        FileMaking::Suite => suite(alloc, pieces),
    }
}

/// The same by a production of statements.
#[inline(never)]
fn make_statement(
    alloc: Global,
    bytes: &[u8],
    making: StatementMaking,
    pieces: &mut Stack<Piece>,
    line: u32,
) -> Result<Piece, NoMemory>
    ensures made { IfOk result (λ v. v
        ≡ apply (statement_action making) bytes.now line pieces.old) }
    ensures rest { IfOk result (λ _. pieces.new
        ≡ drop (arity (statement_action making)) pieces.old) }
{
    match making {
        StatementMaking::If => conditional(alloc, pieces, line),
        StatementMaking::Elifs => elifs(alloc, pieces, line),
        StatementMaking::While => while_loop(alloc, pieces, line),
        StatementMaking::For => for_loop(alloc, bytes, pieces, line),
        StatementMaking::Targets => more_targets(alloc, bytes, pieces, line),
        StatementMaking::TargetComma => Ok(target_comma(alloc, pieces)),
        StatementMaking::Simple => simple(alloc, pieces, line),
        StatementMaking::Pass => pass_line(alloc, pieces, line),
        StatementMaking::Break => break_line(alloc, pieces, line),
        StatementMaking::Continue => continue_line(alloc, pieces, line),
        StatementMaking::Return => return_line(alloc, pieces, line),
        StatementMaking::Assert => assert_line(alloc, pieces, line),
        StatementMaking::Assign => assign(alloc, pieces),
        StatementMaking::Augment => augment(alloc, pieces),
    }
}

/// The same by a production of expressions.
#[inline(never)]
fn make_expression(
    alloc: Global,
    bytes: &[u8],
    making: ExpressionMaking,
    pieces: &mut Stack<Piece>,
    line: u32,
) -> Result<Piece, NoMemory>
    ensures made { IfOk result (λ v. v
        ≡ apply (expression_action making) bytes.now line pieces.old) }
    ensures rest { IfOk result (λ _. pieces.new
        ≡ drop (arity (expression_action making)) pieces.old) }
{
    match making {
        ExpressionMaking::Tests => tests(alloc, pieces),
        ExpressionMaking::Comma => comma(alloc, pieces),
        ExpressionMaking::Test => test(alloc, pieces),
        ExpressionMaking::Condition => condition(alloc, pieces),
        ExpressionMaking::Or => or_test(alloc, pieces),
        ExpressionMaking::And => and_test(alloc, pieces),
        ExpressionMaking::Member => member(alloc, pieces),
        ExpressionMaking::Not => not_test(alloc, pieces),
        ExpressionMaking::Compare => compare(alloc, pieces),
        ExpressionMaking::Compared => compared(alloc, pieces),
        ExpressionMaking::NotIn => not_in(alloc, pieces),
        ExpressionMaking::Chain => chain(alloc, pieces),
        ExpressionMaking::Link => link(alloc, pieces),
        ExpressionMaking::Unary => unary(alloc, pieces),
        ExpressionMaking::Power => power(alloc, pieces),
        ExpressionMaking::Suffixed => suffixed(alloc, pieces),
        ExpressionMaking::Suffix => suffix(alloc, pieces),
        ExpressionMaking::Sub => sub(alloc, pieces),
        ExpressionMaking::Upper => upper(alloc, pieces),
        ExpressionMaking::Bound => Ok(bound(pieces)),
        ExpressionMaking::Name => name(alloc, bytes, pieces, line),
        ExpressionMaking::Int => int(alloc, pieces),
        ExpressionMaking::Text => text(alloc, bytes, pieces, line),
        ExpressionMaking::Constant => constant(alloc, pieces),
        ExpressionMaking::Group => group(alloc, pieces),
        ExpressionMaking::Arguments => arguments(alloc, pieces),
    }
}

/// The parts in front become what is made of them.
// Two productions in five are empty: they make a piece of nothing, and pay for no other's frame.
fn expand(
    alloc: Global,
    bytes: &[u8],
    making: Making,
    pieces: &mut Stack<Piece>,
    line: u32,
) -> Result<(), NoMemory>
    ensures { IfOk result (λ _. pieces.new
        ≡ apply (action making) bytes.now line pieces.old
        ∷ drop (arity (action making)) pieces.old) }
{
    match making {
        Making::Nothing => pieces.push(Piece::Nothing),
        Making::Same => {
            let piece = pop(pieces);
            pieces.push(piece)
        }
        Making::Second => {
            let piece = second(pieces);
            pieces.push(piece)
        }
        Making::File(making) => {
            let piece = make_file(alloc, bytes, making, pieces, line)?;
            pieces.push(piece)
        }
        Making::Statement(making) => {
            let piece = make_statement(alloc, bytes, making, pieces, line)?;
            pieces.push(piece)
        }
        Making::Expression(making) => {
            let piece = make_expression(alloc, bytes, making, pieces, line)?;
            pieces.push(piece)
        }
    }
}

/// One step back: the token before the place is a piece, or the pieces in front become one.
fn back(
    alloc: Global,
    bytes: &[u8],
    tokens: &[Token],
    pieces: &mut Stack<Piece>,
    step: Step,
    at: usize,
) -> Result<usize, NoMemory>
    requires { MayBack grammar tokens.now step at }
    ensures { IfOk result (λ next. Back grammar bytes.now tokens.now step pieces.old at pieces.new
        next) }
{
    match step {
        Step::Shift => {
            pieces.push(Piece::Leaf(Boxed::new(alloc, tokens[at - 1])?))?;
            Ok(at - 1)
        }
        Step::Expand(production) => {
            let line = line_at(tokens, at);
            expand(alloc, bytes, making_of(production), pieces, line)?;
            Ok(at)
        }
    }
}

/// What these steps make of these tokens.
pub fn read(
    alloc: Global,
    bytes: &[u8],
    tokens: &[Token],
    steps: &[Step],
) -> Result<Stack<Piece>, NoMemory>
    requires shifts { shifts steps.now ≡ length tokens.now }
    requires known { All (IsKnown grammar) steps.now }
    ensures { IfOk result (λ pieces. pieces ≡ read_back grammar bytes.now steps.now tokens.now) }
{
    let mut pieces = Stack::new(alloc);
    let mut at = tokens.len();
    let mut i = steps.len();
    while i > 0 {
        i -= 1;
        match back(alloc, bytes, tokens, &mut pieces, steps[i], at) {
            Ok(next) => at = next,
            Err(stop) => return Err(stop),
        }
    }
    Ok(pieces)
}
