//! The parser: a stack of the symbols that are still to come, and the table.

ghost use Rattle.std.specs.Prelude.{◌≡◌, ◌+◌, ◌<◌, ◌≤◌, [], ◌∷◌, ◌++◌, length, reverse, drop, true, IfOk, IfErr, OnOk};
ghost use Rattle.pyd_syntax.specs.Terminals.{terminals};
ghost use Rattle.pyd_syntax.specs.Grammar.{grammar};
ghost use Rattle.pyd_syntax.specs.Derivation.{symbols};
ghost use Rattle.pyd_syntax.specs.Script.{IsDerivation, IsScript, IsFirstHopeless, IsUnfinished, EndsAtEnd, IfHopeless, IfUnfinished, UnlessNoMemory, StopsAt};
ghost use Rattle.pyd_syntax.specs.Table.{table, entry, ahead, in_range, Turned};

use crate::code::{length, symbol};
use crate::productions::{PRODUCTIONS, START};
use crate::step::Step;
use crate::stop::Stop;
use crate::symbol::Symbol;
use crate::table::{RULES, TABLE};
use crate::terminal::{OTHER, TERMINALS, terminal};
use pyd_lex::Token;
use pyd_value::NoMemory;
use std::alloc::Global;

/// The steps that derive these tokens, from the left, or why there are none. The tokens are all of a
/// source, the last of them its end; docs/FORMATS.md has the grammar, under "The grammar".
pub fn derive(alloc: Global, tokens: &[Token]) -> Result<Vec<Step>, Stop>
    ensures ok { IfOk result (λ steps. IsDerivation steps.items tokens.now) }
    ensures none { IfErr result (λ stop. UnlessNoMemory stop (IsScript tokens.now → ⊥)) }
    ensures hopeless { IfErr result (λ stop. IfHopeless stop (IsFirstHopeless tokens.now)) }
    ensures unfinished { IfErr result (λ stop. IfUnfinished stop (IsUnfinished tokens.now)) }
    ensures ended { IfErr result (λ stop. IfUnfinished stop (EndsAtEnd tokens.now → ⊥)) }
{
    let mut steps = Vec::new(alloc);
    let mut stack = Vec::new(alloc);
    match stack.push(Symbol::Rule(START)) {
        Ok(()) => {}
        Err(_) => return Err(Stop::NoMemory),
    }
    let mut at = 0;
    while let Some(symbol) = stack.pop() {
        match turn(&mut stack, &mut steps, symbol, tokens, at) {
            Ok(Some(next)) => at = next,
            Ok(None) => return Err(stop_at(tokens, at)),
            Err(_) => return Err(Stop::NoMemory),
        }
    }
    if at < tokens.len() {
        return Err(Stop::Hopeless(at));
    }
    Ok(steps)
}

/// One turn: the symbol that was on top of the stack is a terminal and is shifted, or a rule and is
/// expanded. None where neither can be.
fn turn(
    stack: &mut Vec<Symbol>,
    steps: &mut Vec<Step>,
    symbol: Symbol,
    tokens: &[Token],
    at: usize,
) -> Result<Option<usize>, NoMemory>
    requires symbol { in_range table (symbol ∷ []) ≡ true }
    ensures { let turned = Turned (terminals tokens.now) symbol stack.old.items steps.old.items at
        in IfOk result (λ next. turned stack.new.items steps.new.items next) }
{
    match symbol {
        Symbol::Terminal(kind) => {
            if at < tokens.len() && terminal(tokens[at].kind) == kind {
                steps.push(Step::Shift)?;
                Ok(Some(at + 1))
            } else {
                Ok(None)
            }
        }
        Symbol::Rule(rule) => {
            let production = entry(rule, ahead(tokens, at));
            if production < PRODUCTIONS {
                steps.push(Step::Expand(production))?;
                expand(stack, production)?;
                Ok(Some(at))
            } else {
                Ok(None)
            }
        }
    }
}

/// The terminal of the token at this place; behind the last one that of no production.
fn ahead(tokens: &[Token], at: usize) -> u8
    ensures value { result ≡ ahead (drop at (terminals tokens.now)) }
    ensures within { result < TERMINALS }
{
    if at < tokens.len() {
        terminal(tokens[at].kind)
    } else {
        OTHER
    }
}

/// The production for a rule before a terminal.
fn entry(rule: u8, terminal: u8) -> u8
    requires rule { rule < RULES }
    requires terminal { terminal < TERMINALS }
    ensures value { result ≡ entry table rule terminal }
{
    TABLE[rule as usize][terminal as usize]
}

/// Puts the symbols of a production on the stack, the first on top.
fn expand(stack: &mut Vec<Symbol>, production: u8) -> Result<(), NoMemory>
    requires { production < PRODUCTIONS }
    ensures ok { OnOk result
        (reverse stack.new.items ≡ symbols grammar production ++ reverse stack.old.items) }
{
    let mut i = length(production);
    while i > 0 {
        i -= 1;
        stack.push(symbol(production, i))?;
    }
    Ok(())
}

/// Why the parser stops at this place.
fn stop_at(tokens: &[Token], at: usize) -> Stop
    ensures { StopsAt (terminals tokens.now) at result }
{
    if at < tokens.len() {
        Stop::Hopeless(at)
    } else {
        Stop::Unfinished
    }
}
