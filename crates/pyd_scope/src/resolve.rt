//! What a name stands for in a routine of a program (Python Language Reference, section 4.2.2).
ghost use Rattle.std.specs.Prelude.{◌≡◌, ◌<◌, ◌^◌, length, map, option_map, IfSome};
ghost use Rattle.std.specs.List.{flat_map, position_from};
ghost use Rattle.std.specs.Map.{lookup};
ghost use Rattle.pyd_names.specs.Binding.{same_name, is_among, imports_in};
ghost use Rattle.pyd_names.specs.Resolution.{function_named, resolved_outside};
ghost use Rattle.pyd_scope.specs.Places as places;
ghost use Rattle.pyd_scope.specs.Resolving as spec;
ghost use Rattle.pyd_scope.specs.Tables.{IsKnown};

use crate::table::Known;
use crate::{Program, Routine, Use};
use pyd_names::builtin_named;
use pyd_tree::Item;
use pyd_value::{Text, Value};

impl Program {
    /// What a name stands for in a routine, the module being routine 0: a local, else a constant, a
    /// function, an imported name, a builtin, a module variable, or nothing. Takes no memory.
    pub fn resolve(&self, routine: u32, name: &Text) -> Use<'_>
        ensures { spec.Resolves self.now routine name.now result }
    {
        match self.known(routine, name) {
            Some(Known::Slot(place)) => Use::Slot(place as u32),
            Some(Known::Constant(place)) => Use::Constant(&self.constants.as_slice()[place].1),
            Some(Known::Routine(place)) => Use::Routine(place as u32 + 1),
            Some(Known::Builtin(builtin)) => Use::Builtin(builtin),
            Some(Known::Imported) => Use::Imported,
            Some(Known::Variable) => Use::Variable,
            Some(Known::Unbound) => Use::Unbound,
            None => self.search(routine, name),
        }
    }

    /// What is known of a name that occurs in a routine.
    fn known(&self, routine: u32, name: &Text) -> Option<Known>
        ensures { IfSome result (IsKnown self.now.file routine name.now) }
    {
        self.tables.get(routine)?.find(name)
    }

    /// What a name stands for in a routine, sought in the parts of the program.
    fn search(&self, routine: u32, name: &Text) -> Use<'_>
        ensures { spec.Resolves self.now routine name.now result }
    {
        match self.slot(routine, name) {
            Some(slot) => Use::Slot(slot),
            None => self.outside(name),
        }
    }

    /// The place of a name among the slots of a routine, counted from 0.
    fn slot(&self, routine: u32, name: &Text) -> Option<u32>
        ensures { result ≡ places.place (spec.slots_of self.now routine) name.now }
    {
        let routine = self.routines.get(routine as usize)?;
        place(routine.slots.as_slice(), name)
    }

    /// What a name stands for that is no local.
    fn outside(&self, name: &Text) -> Use<'_>
        ensures { spec.resolution_of result ≡ resolved_outside self.now.file name.now }
    {
        if let Some(value) = constant_named(self.constants.as_slice(), name) {
            return Use::Constant(value);
        }
        if let Some(number) = self.function(name) {
            return Use::Routine(number);
        }
        if is_imported(self.file.items.as_slice(), name) {
            return Use::Imported;
        }
        if let Some(builtin) = builtin_named(name) {
            return Use::Builtin(builtin);
        }
        match self.slot(0, name) {
            Some(_) => Use::Variable,
            None => Use::Unbound,
        }
    }

    /// The number of the first function of this name, counted from 1.
    fn function(&self, name: &Text) -> Option<u32>
        ensures { result ≡ function_named self.now.file name.now }
    {
        let (_, functions) = self.routines.as_slice().split_first()?;
        number(functions, name)
    }
}

/// The first place of a name, counted from 0.
fn place(names: &[Text], name: &Text) -> Option<u32>
    requires { length names.now < 2 ^ 32 }
    ensures { result ≡ places.place names.now name.now }
{
    let mut at = 0;
    for other in names {
        if name == other {
            return Some(at);
        }
        at += 1;
    }
    None
}

/// The number of the first function of this name, counted from 1.
fn number(functions: &[Routine], name: &Text) -> Option<u32>
    requires { length functions.now < 2 ^ 32 }
    ensures { result
        ≡ position_from (same_name name.now) 1 (map (λ f. f.name) functions.now) }
{
    let mut number = 0;
    for function in functions {
        number += 1;
        if *name == function.name {
            return Some(number);
        }
    }
    None
}

/// The value of the first constant of this name.
fn constant_named<'a>(constants: &'a [(Text, Value)], name: &Text) -> Option<&'a Value>
    ensures { option_map (λ v. v.now) result ≡ lookup (same_name name.now) constants.now }
{
    for constant in constants {
        if *name == constant.0 {
            return Some(&constant.1);
        }
    }
    None
}

/// Whether an item imports a name.
fn is_imported(items: &[Item], name: &Text) -> bool
    ensures { result ≡ is_among (flat_map imports_in items.now) name.now }
{
    for item in items {
        if imports(item, name) {
            return true;
        }
    }
    false
}

fn imports(item: &Item, name: &Text) -> bool
    ensures { result ≡ is_among (imports_in item.now) name.now }
{
    match item {
        Item::Import(_, _, names) => names.as_slice().contains(name),
        Item::Def(_) | Item::Stmt(_) => false,
    }
}
