//! A routine that was called at a depth, and places in its text.
ghost use Rattle.std.specs.Prelude.{◌≡◌, None, IfOk};
ghost use Rattle.pyd_scope.specs.Numbering as numbering;
ghost use Rattle.pyd_scope.specs.Numbering.{arms_contents, contents};
ghost use Rattle.pyd_scope.specs.Passages.{entry_passage, passage_at};
ghost use Rattle.pyd_translate.specs.Compounds as compounds;
ghost use Rattle.pyd_translate.specs.Drafts.{context_of, file_of};
ghost use Rattle.pyd_translate.specs.Flows as spec;

use crate::context::Context;
use crate::counting;
use crate::numbers::next;
use pyd_ir::Arg;
use pyd_scope::{Program, Stmts};
use pyd_tree::{Arm, Expr, Stmt};
use pyd_value::{NoMemory, Text};
use std::alloc::Global;

/// A routine of a program that was called at a depth.
#[derive(Clone, Copy)]
pub struct Setting<'a> {
    pub alloc: Global,
    pub program: &'a Program,
    pub routine: u32,
    pub depth: u32,
}

/// A place in a routine's text: the numbers of the next statement and of the next expression, both
/// counted from 0 in text order.
#[derive(Clone, Copy)]
pub struct Point {
    pub statement: u32,
    pub expression: u32,
}

/// Statements of one block that begin at a place.
#[derive(Drop)]
pub struct Passage<'a> {
    pub stmts: Stmts<'a>,
    pub point: Point,
}

impl<'a> Setting<'a> {
    /// The names that the routine binds.
    pub fn slots(&self) -> &'a [Text]
        ensures { result.now ≡ spec.slots_in self.now }
    {
        match self.program.routines.get(self.routine as usize) {
            Some(routine) => routine.slots.as_slice(),
            None => &[],
        }
    }

    /// A statement by its number, and those that follow it in its block. There are none where the number
    /// names no statement.
    pub fn passage(&self, statement: u32) -> Passage<'a>
        ensures { spec.passage_of result
            ≡ passage_at (spec.file_in self.now) self.now.routine statement }
    {
        match self.program.place(self.routine, statement) {
            Some(place) => Passage {
                stmts: place.stmts,
                point: Point {
                    statement,
                    expression: place.expression,
                },
            },
            None => nothing_at(statement),
        }
    }

    /// What follows a statement in its block.
    pub fn behind(&self, statement: u32) -> Passage<'a>
        ensures { spec.passage_of result
            ≡ compounds.passage_behind
            (passage_at (spec.file_in self.now) self.now.routine statement) }
    {
        match self.program.place(self.routine, statement) {
            Some(place) => Passage {
                stmts: others(&place.stmts),
                point: Point {
                    statement: place.behind_statement,
                    expression: place.behind_expression,
                },
            },
            None => nothing_at(statement),
        }
    }

    /// A line of the routine, with the arguments of its slots.
    pub fn context<'b>(&'b self, line: u32, env: &'b [Arg]) -> Context<'b>
        ensures context { context_of result ≡ spec.context_in self.now line env.now }
        ensures file { file_of result ≡ spec.file_in self.now }
    {
        Context {
            alloc: self.alloc,
            program: self.program,
            routine: self.routine,
            depth: self.depth,
            line,
            env,
        }
    }
}

/// No statement, at the number of one.
fn nothing_at<'a>(statement: u32) -> Passage<'a>
    ensures { spec.passage_of result ≡ entry_passage None statement }
{
    Passage {
        stmts: Stmts::none(),
        point: Point {
            statement,
            expression: 0,
        },
    }
}

/// All statements but the first.
fn others<'a>(stmts: &Stmts<'a>) -> Stmts<'a>
    ensures { result ≡ compounds.behind stmts.now }
{
    match stmts.split_first() {
        Some((_, others)) => others,
        None => Stmts::none(),
    }
}

/// The place inside a statement that begins at a place.
pub fn inside(point: Point) -> Result<Point, NoMemory>
    ensures { IfOk result (λ p. spec.point_of p ≡ numbering.inside (spec.point_of point)) }
{
    let statement = next(point.statement)?;
    Ok(Point {
        statement,
        expression: point.expression,
    })
}

/// The place behind an expression that begins at a place.
pub fn past_expression(e: &Expr, point: Point) -> Result<Point, NoMemory>
    ensures { IfOk result (λ p. spec.point_of p
        ≡ numbering.past_expression e.now (spec.point_of point)) }
{
    let expression = counting::behind(point.expression, e)?;
    Ok(Point {
        statement: point.statement,
        expression,
    })
}

/// The place behind arms that stand at a place, one behind the other.
pub fn past_arms(at: &Setting<'_>, arms: &[Arm], point: Point) -> Result<Point, NoMemory>
    requires { spec.StandsIn at.now (arms_contents arms.now) (spec.point_of point) }
    ensures { IfOk result (λ p. spec.point_of p
        ≡ numbering.past (arms_contents arms.now) (spec.point_of point)) }
{
    let mut behind = point;
    for arm in arms {
        let suite = past_expression(&arm.test, behind)?;
        behind = past_statements(at, arm.body.stmts.as_slice(), suite);
    }
    Ok(behind)
}

/// The place behind statements of one block that stand at a place.
fn past_statements(at: &Setting<'_>, stmts: &[Stmt], point: Point) -> Point
    requires { spec.StandsIn at.now (contents stmts.now) (spec.point_of point) }
    ensures { spec.point_of result
        ≡ numbering.past (contents stmts.now) (spec.point_of point) }
{
    let mut behind = point;
    for _ in stmts {
        match at.program.place(at.routine, behind.statement) {
            Some(place) => {
                behind = Point {
                    statement: place.behind_statement,
                    expression: place.behind_expression,
                };
            }
            None => return behind,
        }
    }
    behind
}
