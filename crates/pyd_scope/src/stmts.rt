//! Statements of one block, and the place of a statement in its routine.
ghost use Rattle.std.specs.Prelude.{◌≡◌, [], ◌∷◌, slice_get, drop, MatchOption};
ghost use Rattle.std.specs.Option.{option_copied};
ghost use Rattle.pyd_scope.specs.Blocks as spec;

use pyd_tree::{Block, File, Item, Stmt};
use std::marker::Model;

/// Statements of one block that follow one another up to its end, which contracts see as their list.
#[derive(Drop)]
pub struct Stmts<'p> {
    run: Run<'p>,
}

/// Where the statements lie.
#[derive(Clone, Copy)]
enum Run<'p> {
    /// In a suite.
    Suite(&'p [Stmt]),
    /// In the module, at these places among its items. Places that have no statement are passed over.
    Module(&'p [Item], &'p [u32]),
}

impl<'p> Model for Stmts<'p> {
    ghost use Rattle.std.specs.Prelude.{List};
    ghost use Rattle.pyd_tree.specs.declared.statement.Stmt.{Stmt as AStmt};
    ghost use Rattle.std.specs.Coded.{coded_list};
    ghost use Rattle.pyd_tree.specs.contracts.statement.Stmt as stmt;

    ghost Value = { List AStmt };

    ghost coded = { coded_list stmt.the_row.coded };

    ghost use Rattle.pyd_scope.specs.Runs.{run_stmts};

    ghost view = { λ s. run_stmts s.run };
}

/// A statement with those that follow it in its block, the number of the first expression in it, and
/// the numbers of the next statement and the next expression behind it.
#[derive(Drop)]
pub struct Place<'p> {
    pub stmts: Stmts<'p>,
    pub expression: u32,
    pub behind_statement: u32,
    pub behind_expression: u32,
}

impl<'p> Stmts<'p> {
    /// No statements.
    pub fn none() -> Stmts<'p>
        ensures { result ≡ [] }
    {
        Stmts {
            run: Run::Suite(&[]),
        }
    }

    /// The statements of a suite, but for so many.
    pub fn of_block(block: &'p Block, count: u32) -> Stmts<'p>
        ensures { result ≡ drop count (spec.block_stmts block.now) }
    {
        let stmts = behind(block.stmts.as_slice(), count);
        Stmts {
            run: Run::Suite(stmts),
        }
    }

    /// The statements at these places among the items of a module, but for so many places.
    pub(crate) fn of_module(file: &'p File, places: &'p [u32], count: u32) -> Stmts<'p>
        ensures { result ≡ spec.placed_stmts file.now.items (drop count places.now) }
    {
        let places = behind(places, count);
        Stmts {
            run: Run::Module(file.items.as_slice(), places),
        }
    }

    /// The first statement.
    pub fn first(&self) -> Option<&'p Stmt>
        ensures { option_copied result ≡ slice_get self.now 0 }
    {
        match self.run {
            Run::Suite(stmts) => stmts.first(),
            Run::Module(items, places) => match split(items, places) {
                Some((first, _)) => Some(first),
                None => None,
            },
        }
    }

    /// The first statement, and those that follow it.
    pub fn split_first(&self) -> Option<(&'p Stmt, Stmts<'p>)>
        ensures { MatchOption result (self.now ≡ []) (λ p. self.now ≡ p.0.now ∷ p.1) }
    {
        match self.run {
            Run::Suite(stmts) => {
                let (first, rest) = stmts.split_first()?;
                Some((
                    first,
                    Stmts {
                        run: Run::Suite(rest),
                    },
                ))
            }
            Run::Module(items, places) => {
                let (first, rest) = split(items, places)?;
                let run = Run::Module(items, rest);
                Some((first, Stmts { run }))
            }
        }
    }
}

/// The first statement of a module at these places, and the places behind its own.
fn split<'p>(items: &'p [Item], places: &'p [u32]) -> Option<(&'p Stmt, &'p [u32])>
    ensures { MatchOption result (spec.placed_stmts items.now places.now ≡ [])
        (λ p. spec.placed_stmts items.now places.now
        ≡ p.0.now ∷ spec.placed_stmts items.now p.1.now) }
{
    for (at, place) in places.iter().enumerate() {
        if let Some(stmt) = stmt_at(items, *place) {
            return Some((stmt, &places[at + 1..]));
        }
    }
    None
}

/// The statement at a place among the items of a module, if one is there.
fn stmt_at(items: &[Item], place: u32) -> Option<&Stmt>
    ensures { option_copied result ≡ spec.stmt_at items.now place }
{
    match items.get(place as usize)? {
        Item::Stmt(stmt) => Some(stmt),
        Item::Import(_, _, _) | Item::Def(_) => None,
    }
}

/// What follows so many items.
fn behind<T>(items: &[T], count: u32) -> &[T]
    ensures { result.now ≡ drop count items.now }
{
    match items.get(count as usize..) {
        Some(rest) => rest,
        None => &[],
    }
}
