//! The routines of a program.
ghost use Rattle.std.specs.Prelude.{◌≡◌, ◌<◌, ◌^◌, ◌∷◌, [], ◌++◌, length, IfOk, OnOk};
ghost use Rattle.pyd_names.specs.WellFormed.{item_parts};
ghost use Rattle.pyd_scope.specs.Parts as spec;

use crate::marks::{has_mark, is_functional};
use pyd_names::{function_locals, module_variables};
use pyd_tree::{File, Func, Item};
use pyd_value::{List, NoMemory, Text};
use std::alloc::Global;

/// A function, or the module: the body of a call with its slots.
#[derive(Drop)]
pub struct Routine {
    /// The function's name, `__main__` for the module.
    pub name: Text,
    /// The line of the word `def`, 1 for the module.
    pub line: u32,
    /// Whether it is `@functional`.
    pub pure: bool,
    /// Whether it is `@schedule`; the module is.
    pub unfolded: bool,
    /// How many parameters it has.
    pub params: u32,
    /// The names that it binds: the parameters, and then the others in text order.
    pub slots: List<Text>,
}

/// Puts the module at the end.
pub fn add_module(alloc: Global, file: &File, out: &mut List<Routine>) -> Result<(), NoMemory>
    ensures { OnOk result (out.new ≡ out.old ++ spec.module_routine file.now ∷ []) }
{
    let name = Text::of(alloc, "__main__")?;
    let slots = module_variables(alloc, file)?;
    out.add(Routine {
        name,
        line: 1,
        pure: false,
        unfolded: true,
        params: 0,
        slots,
    })
}

/// Puts the function that an item is at the end, if it is one.
pub fn add_item(alloc: Global, item: &Item, out: &mut List<Routine>) -> Result<(), NoMemory>
    requires { item_parts item.now < 2 ^ 32 }
    ensures { OnOk result (out.new ≡ out.old ++ spec.routines_in item.now) }
{
    match item {
        Item::Import(_, _, _) | Item::Stmt(_) => Ok(()),
        Item::Def(func) => {
            let routine = function_routine(alloc, func)?;
            out.add(routine)
        }
    }
}

fn function_routine(alloc: Global, func: &Func) -> Result<Routine, NoMemory>
    requires { length func.now.params < 2 ^ 32 }
    ensures { IfOk result (λ r. r ≡ spec.function_routine func.now) }
{
    let name = func.name.try_clone()?;
    let slots = function_locals(alloc, func)?;
    Ok(Routine {
        name,
        line: func.line,
        pure: is_functional(func),
        unfolded: has_mark(func, "schedule"),
        params: func.params.len() as u32,
        slots,
    })
}
