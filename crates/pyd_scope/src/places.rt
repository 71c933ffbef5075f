//! The statements and expressions of a program's routines, by their numbers.
ghost use Rattle.std.specs.Prelude.{◌≡◌, ◌+◌, length, drop, slice_get, option_map, option_and_then, IfSome};
ghost use Rattle.std.specs.Option.{option_copied};
ghost use Rattle.pyd_scope.specs.Numbering as numbering;
ghost use Rattle.pyd_scope.specs.Numbering.{point, past_first, expressions};
ghost use Rattle.pyd_names.specs.Binding.{function_in, functions};
ghost use Rattle.pyd_scope.specs.Placed.{entry_of};
ghost use Rattle.pyd_scope.specs.Cells.{body_cells};
ghost use Rattle.pyd_scope.specs.Locating.{statement_in, suffix_at, located, suite_stmts};
ghost use Rattle.pyd_scope.specs.declared.cells.Origin.TheVariants.{Header, Part, Low, High};

use crate::Program;
use crate::cells::{ExpressionCell, Origin, StatementCell, Suite};
use crate::parts::{arm_suite, else_suite, header, high, loop_suite, low, part, suffixes};
use crate::stmts::{Place, Stmts};
use pyd_tree::{Expr, Func, Item, Stmt, Suffix};

impl Program {
    /// The statements of a routine: in the module what is no import, no `def` and no constant. None
    /// where there is no such routine.
    pub fn body(&self, routine: u32) -> Stmts<'_>
        ensures { result ≡ numbering.body self.now.file routine }
    {
        self.body_behind(routine, 0)
    }

    /// Statement number `statement` of a routine, in text order from 0.
    #[cycle(places)]
    pub fn place(&self, routine: u32, statement: u32) -> Option<Place<'_>>
        ensures entry { option_map entry_of result
            ≡ slice_get (numbering.table self.now.file routine) statement }
        ensures behind { IfSome result (λ p. point p.behind_statement p.behind_expression
            ≡ past_first p.stmts (point statement p.expression)) }
    {
        match self.statement_cell(routine, statement) {
            None => None,
            Some(cell) => match self.block_behind(routine, cell.suite, cell.at) {
                None => None,
                Some(stmts) => Some(Place {
                    stmts,
                    expression: cell.expression,
                    behind_statement: cell.behind_statement,
                    behind_expression: cell.behind_expression,
                }),
            },
        }
    }

    /// Expression number `number` of a routine, in text order from 0, each before its parts.
    #[cycle(expressions)]
    pub fn expression(&self, routine: u32, number: u32) -> Option<&Expr>
        ensures { option_copied result
            ≡ slice_get (numbering.expression_table self.now.file routine) number }
    {
        match self.expression_cell(routine, number) {
            None => None,
            Some(cell) => match cell.origin {
                Origin::Header { stmt, at } => self.header(routine, stmt, at),
                Origin::Part { of, at } => self.part(routine, of, at),
                Origin::Low { of, suffix } => self.low(routine, of, suffix),
                Origin::High { of, suffix } => self.high(routine, of, suffix),
            },
        }
    }

    /// The number behind an expression of this number and its parts.
    pub fn expression_behind(&self, routine: u32, number: u32) -> Option<u32>
        ensures { result ≡ option_map (λ e. number + length (expressions e))
            (slice_get (numbering.expression_table self.now.file routine) number) }
    {
        match self.expression_cell(routine, number) {
            Some(cell) => Some(cell.behind),
            None => None,
        }
    }

    /// An expression in the lines of a statement.
    fn header(&self, routine: u32, stmt: u32, at: u32) -> Option<&Expr>
        ensures { option_copied result ≡ located (numbering.table self.now.file routine)
            (numbering.expression_table self.now.file routine) (Header stmt at) }
    {
        header(self.statement(routine, stmt)?, at)
    }

    /// A part of an expression outside brackets.
    #[cycle(expressions)]
    fn part(&self, routine: u32, of: u32, at: u32) -> Option<&Expr>
        ensures { option_copied result ≡ located (numbering.table self.now.file routine)
            (numbering.expression_table self.now.file routine) (Part of at) }
    {
        part(self.expression(routine, of)?, at)
    }

    /// The index or the lower bound in brackets.
    #[cycle(expressions)]
    fn low(&self, routine: u32, of: u32, at: u32) -> Option<&Expr>
        ensures { option_copied result ≡ located (numbering.table self.now.file routine)
            (numbering.expression_table self.now.file routine) (Low of at) }
    {
        low(self.suffix(routine, of, at)?)
    }

    /// The upper bound in brackets.
    #[cycle(expressions)]
    fn high(&self, routine: u32, of: u32, at: u32) -> Option<&Expr>
        ensures { option_copied result ≡ located (numbering.table self.now.file routine)
            (numbering.expression_table self.now.file routine) (High of at) }
    {
        high(self.suffix(routine, of, at)?)
    }

    /// The brackets at a place behind an expression.
    #[cycle(expressions)]
    fn suffix(&self, routine: u32, of: u32, at: u32) -> Option<&Suffix>
        ensures { option_copied result
            ≡ suffix_at (numbering.expression_table self.now.file routine) of at }
    {
        suffixes(self.expression(routine, of)?).get(at as usize)
    }

    /// A statement by its number.
    #[cycle(places)]
    fn statement(&self, routine: u32, statement: u32) -> Option<&Stmt>
        ensures { option_copied result
            ≡ statement_in (slice_get (numbering.table self.now.file routine) statement) }
    {
        match self.place(routine, statement) {
            Some(place) => place.stmts.first(),
            None => None,
        }
    }

    /// The statements of a block, but for so many.
    #[cycle(places)]
    fn block_behind(&self, routine: u32, suite: Suite, count: u32) -> Option<Stmts<'_>>
        ensures { result ≡ option_map (drop count) (suite_stmts
            (numbering.table self.now.file routine) (numbering.body self.now.file routine) suite) }
    {
        let block = match suite {
            Suite::Body => return Some(self.body_behind(routine, count)),
            Suite::Arm { stmt, arm } => arm_suite(self.statement(routine, stmt)?, arm)?,
            Suite::Otherwise(stmt) => else_suite(self.statement(routine, stmt)?)?,
            Suite::LoopBody(stmt) => loop_suite(self.statement(routine, stmt)?)?,
        };
        Some(Stmts::of_block(block, count))
    }

    /// The statements of a routine, but for so many.
    fn body_behind(&self, routine: u32, count: u32) -> Stmts<'_>
        ensures { result ≡ drop count (numbering.body self.now.file routine) }
    {
        if routine == 0 {
            return Stmts::of_module(&self.file, self.index.statements(), count);
        }
        match self.function_at(routine - 1) {
            Some(func) => Stmts::of_block(&func.body, count),
            None => Stmts::none(),
        }
    }

    /// A function, counted from 0.
    fn function_at(&self, number: u32) -> Option<&Func>
        ensures { option_copied result ≡ slice_get (functions self.now.file) number }
    {
        match self.index.function(number) {
            Some(place) => function(self.file.items.as_slice(), place),
            None => None,
        }
    }

    fn statement_cell(&self, routine: u32, statement: u32) -> Option<StatementCell>
        ensures { result
            ≡ slice_get (body_cells (numbering.body self.now.file routine)).statements statement }
    {
        self.index.statement(routine, statement)
    }

    fn expression_cell(&self, routine: u32, number: u32) -> Option<ExpressionCell>
        ensures { result
            ≡ slice_get (body_cells (numbering.body self.now.file routine)).expressions number }
    {
        self.index.expression(routine, number)
    }
}

/// The function at a place among the items, if one is there.
fn function(items: &[Item], place: u32) -> Option<&Func>
    ensures { option_copied result ≡ option_and_then function_in (slice_get items.now place) }
{
    match items.get(place as usize)? {
        Item::Def(func) => Some(func),
        Item::Import(_, _, _) | Item::Stmt(_) => None,
    }
}
