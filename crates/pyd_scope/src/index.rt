//! The numbers of the statements and expressions of a file's routines, and their places in the tree.
ghost use Rattle.std.specs.Prelude.{◌≡◌, [], ◌∷◌, ◌++◌, map, slice_get, if◌then◌else◌, is_some, IfOk, OnOk};
ghost use Rattle.pyd_names.specs.Binding.{function_in};
ghost use Rattle.pyd_scope.specs.Cells.{cells_of, body_cells, no_cells};
ghost use Rattle.pyd_scope.specs.Numbering.{start};
ghost use Rattle.pyd_scope.specs.Indexing as spec;

use crate::cells::{Columns, ExpressionCell, StatementCell, Suite};
use crate::numbering::{add_each, add_stmts, number};
use pyd_names::{constant_marks, functions, module_statements};
use pyd_tree::{File, Func, Item, Stmt};
use pyd_value::NoMemory;
use std::alloc::Global;
use std::marker::Model;

/// Where a file's statements and expressions stand.
#[derive(Drop)]
pub struct Index {
    /// The places of the module's statements among the file's items.
    statements: Vec<u32>,
    /// The places of the functions among the items.
    functions: Vec<u32>,
    /// The cells of the routines, by their numbers.
    routines: Vec<Columns>,
}

impl Model for Index {
    ghost use Rattle.std.specs.Prelude.{map};
    ghost use Rattle.pyd_scope.specs.Cells.{cells_of};
    ghost use Rattle.pyd_scope.specs.Indexing.{Indexed, indexed};

    ghost Value = { Indexed };

    ghost view = { λ i. indexed i.statements.items i.functions.items (map cells_of i.routines.items) };
}

impl Index {
    /// The index of a file.
    pub fn of(alloc: Global, file: &File) -> Result<Index, NoMemory>
        ensures { IfOk result (λ index. index ≡ spec.index_of file.now) }
    {
        let statements = statement_places(alloc, file)?;
        let functions = function_places(alloc, file)?;
        let routines = routines(alloc, file)?;
        Ok(Index {
            statements,
            functions,
            routines,
        })
    }

    /// The places of the module's statements among the items.
    pub fn statements(&self) -> &[u32]
        ensures { result.now ≡ self.now.statements }
    {
        self.statements.as_slice()
    }

    /// The place of a function, counted from 0, among the items.
    pub fn function(&self, number: u32) -> Option<u32>
        ensures { result ≡ slice_get self.now.functions number }
    {
        self.functions.get(number as usize).copied()
    }

    /// The cell of a statement of a routine.
    pub fn statement(&self, routine: u32, number: u32) -> Option<StatementCell>
        ensures { result ≡ spec.statement_cell self.now.routines routine number }
    {
        let columns = self.routines.get(routine as usize)?;
        columns.statements.get(number as usize).copied()
    }

    /// The cell of an expression of a routine.
    pub fn expression(&self, routine: u32, number: u32) -> Option<ExpressionCell>
        ensures { result ≡ spec.expression_cell self.now.routines routine number }
    {
        let columns = self.routines.get(routine as usize)?;
        columns.expressions.get(number as usize).copied()
    }
}

/// The places of the module's statements among the items: of those that are no import, no `def` and
/// no constant.
fn statement_places(alloc: Global, file: &File) -> Result<Vec<u32>, NoMemory>
    ensures { IfOk result (λ places. places.items ≡ spec.statement_places file.now) }
{
    let constants = constant_marks(alloc, file)?;
    let places = unmarked(alloc, file.items.as_slice(), constants.as_slice())?;
    Ok(places)
}

/// The places of the statements that aren't marked.
fn unmarked(alloc: Global, items: &[Item], marks: &[bool]) -> Result<Vec<u32>, NoMemory>
    ensures { IfOk result (λ places. places.items ≡ spec.unmarked_from marks.now 0 items.now) }
{
    let mut places = Vec::new(alloc);
    for (place, item) in items.iter().enumerate() {
        add_place(is_unmarked(item, marks, place), place, &mut places)?;
    }
    Ok(places)
}

/// Whether an item is a statement that isn't marked.
fn is_unmarked(item: &Item, marks: &[bool], place: usize) -> bool
    ensures { result ≡ spec.is_unmarked item.now (slice_get marks.now place) }
{
    match item {
        Item::Stmt(_) => match marks.get(place) {
            Some(marked) => !*marked,
            None => false,
        },
        Item::Import(_, _, _) | Item::Def(_) => false,
    }
}

/// Puts a place at the end, if it is wanted.
fn add_place(wanted: bool, place: usize, places: &mut Vec<u32>) -> Result<(), NoMemory>
    ensures { OnOk result (places.new.items
        ≡ places.old.items ++ (if wanted then place ∷ [] else [])) }
{
    if wanted {
        let place = number(place)?;
        places.push(place)?;
    }
    Ok(())
}

/// The places of the functions among the items.
fn function_places(alloc: Global, file: &File) -> Result<Vec<u32>, NoMemory>
    ensures { IfOk result (λ places. places.items ≡ spec.function_places file.now) }
{
    let places = function_places_of(alloc, file.items.as_slice())?;
    Ok(places)
}

fn function_places_of(alloc: Global, items: &[Item]) -> Result<Vec<u32>, NoMemory>
    ensures { IfOk result (λ places. places.items
        ≡ spec.places_from (λ i. is_some (function_in i)) 0 items.now) }
{
    let mut places = Vec::new(alloc);
    for (place, item) in items.iter().enumerate() {
        add_place(is_function(item), place, &mut places)?;
    }
    Ok(places)
}

fn is_function(item: &Item) -> bool
    ensures { result ≡ is_some (function_in item.now) }
{
    match item {
        Item::Def(_) => true,
        Item::Import(_, _, _) | Item::Stmt(_) => false,
    }
}

/// The cells of the module and of each function.
fn routines(alloc: Global, file: &File) -> Result<Vec<Columns>, NoMemory>
    ensures { IfOk result (λ list. map cells_of list.items ≡ spec.routine_cells file.now) }
{
    let mut routines = Vec::new(alloc);
    let statements = module_statements(alloc, file)?;
    add_module(alloc, statements.as_slice(), &mut routines)?;
    let funcs = functions(alloc, file)?;
    add_functions(alloc, funcs.as_slice(), &mut routines)?;
    Ok(routines)
}

/// Puts the cells of a module at the end.
fn add_module(alloc: Global, stmts: &[&Stmt], routines: &mut Vec<Columns>) -> Result<(), NoMemory>
    ensures { OnOk result (map cells_of routines.new.items
        ≡ map cells_of routines.old.items ++ body_cells (map (λ s. s.now) stmts.now) ∷ []) }
{
    let mut columns = no_columns(alloc);
    add_each(stmts, &mut columns)?;
    routines.push(columns)?;
    Ok(())
}

/// Puts the cells of functions at the end.
fn add_functions(
    alloc: Global,
    funcs: &[&Func],
    routines: &mut Vec<Columns>,
) -> Result<(), NoMemory>
    ensures { OnOk result (map cells_of routines.new.items
        ≡ map cells_of routines.old.items ++ map (λ f. spec.function_cells f.now) funcs.now) }
{
    for func in funcs {
        add_function(alloc, func, routines)?;
    }
    Ok(())
}

fn add_function(alloc: Global, func: &Func, routines: &mut Vec<Columns>) -> Result<(), NoMemory>
    ensures { OnOk result (map cells_of routines.new.items
        ≡ map cells_of routines.old.items ++ spec.function_cells func.now ∷ []) }
{
    let mut columns = no_columns(alloc);
    add_stmts(Suite::Body, func.body.stmts.as_slice(), &mut columns)?;
    routines.push(columns)?;
    Ok(())
}

fn no_columns(alloc: Global) -> Columns
    ensures { cells_of result ≡ no_cells start }
{
    Columns {
        statements: Vec::new(alloc),
        expressions: Vec::new(alloc),
    }
}
