//! What is known of the names that occur in each routine of a file.
ghost use Rattle.std.specs.Prelude.{◌≡◌, IfOk, OnOk, option_map, slice_get};
ghost use Rattle.pyd_names.specs.Binding.{function_locals, module_variables};
ghost use Rattle.pyd_scope.specs.Tables as spec;

use crate::names::Names;
use crate::standing::Outside;
use crate::table::Table;
use pyd_names::{
    NameUse, distinct, function_locals, functions, module_uses, module_variables, uses,
};
use pyd_tree::{File, Func};
use pyd_value::{List, NoMemory, Text};
use std::alloc::Global;
use std::marker::Model;

/// The tables of the routines by their numbers, which contracts see as their list.
#[derive(Drop)]
pub struct Tables {
    tables: Vec<Table>,
}

impl Model for Tables {
    ghost use Rattle.std.specs.Prelude.{List};
    ghost use Rattle.pyd_scope.specs.declared.table.Entry.{Entry};

    ghost Value = { List (List Entry) };

    ghost view = { λ t. t.tables.items };
}

impl Tables {
    /// The tables of the module and of each function.
    pub fn of(alloc: Global, file: &File) -> Result<Tables, NoMemory>
        ensures { IfOk result (spec.AreTables file.now) }
    {
        let outside = Outside::of(alloc, file)?;
        let module = module_table(alloc, &outside, file)?;
        let mut tables = Vec::new(alloc);
        tables.push(module)?;
        let funcs = functions(alloc, file)?;
        for func in &funcs {
            let table = function_table(alloc, &outside, func)?;
            tables.push(table)?;
        }
        Ok(Tables { tables })
    }

    /// The table of a routine.
    pub fn get(&self, routine: u32) -> Option<&Table>
        ensures { option_map (λ t. t.now) result ≡ slice_get self.now routine }
    {
        self.tables.get(routine as usize)
    }
}

fn module_table(alloc: Global, outside: &Outside, file: &File) -> Result<Table, NoMemory>
    ensures { IfOk result (spec.AreKnown outside.now (module_variables file.now)) }
{
    let slots = module_variables(alloc, file)?;
    let uses = module_uses(alloc, file)?;
    table(alloc, outside, slots.as_slice(), uses.as_slice())
}

fn function_table(alloc: Global, outside: &Outside, func: &Func) -> Result<Table, NoMemory>
    ensures { IfOk result (spec.AreKnown outside.now (function_locals func.now)) }
{
    let slots = function_locals(alloc, func)?;
    let uses = uses(alloc, &func.body)?;
    table(alloc, outside, slots.as_slice(), uses.as_slice())
}

/// The table of a routine that has these slots and uses.
fn table(
    alloc: Global,
    outside: &Outside,
    slots: &[Text],
    uses: &[NameUse],
) -> Result<Table, NoMemory>
    ensures { IfOk result (spec.AreKnown outside.now slots.now) }
{
    let locals = Names::of(alloc, slots)?;
    let names = occurring(alloc, slots, uses)?;
    let mut table = Table::new(alloc);
    add_entries(outside, &locals, names.as_slice(), &mut table)?;
    table.sort();
    Ok(table)
}

fn add_entries(
    outside: &Outside,
    locals: &Names,
    names: &[Text],
    table: &mut Table,
) -> Result<(), NoMemory>
    requires { spec.AreKnown outside.now locals.now table.old }
    ensures { OnOk result (spec.AreKnown outside.now locals.now table.new) }
{
    for name in names {
        table.add(name, outside.known(locals, name))?;
    }
    Ok(())
}

/// The names that occur in a routine, each once. What is left out is found all the same.
fn occurring(alloc: Global, slots: &[Text], uses: &[NameUse]) -> Result<List<Text>, NoMemory> {
    let mut names = List::new(alloc);
    add_names(slots, &mut names)?;
    for name_use in uses {
        let name = name_use.name.try_clone()?;
        names.add(name)?;
    }
    distinct(alloc, names.as_slice())
}

fn add_names(slots: &[Text], names: &mut List<Text>) -> Result<(), NoMemory> {
    for slot in slots {
        let name = slot.try_clone()?;
        names.add(name)?;
    }
    Ok(())
}
