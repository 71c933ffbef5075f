//! What names stand for.
ghost use Rattle.std.specs.Prelude.{◌≡◌, map, IfOk};
ghost use Rattle.pyd_names.specs.Binding as names;
ghost use Rattle.pyd_names.specs.Binding.{is_among};
ghost use Rattle.pyd_scope.specs.declared.standing.Standing.TheVariants.{Unbound};
ghost use Rattle.pyd_scope.specs.Rules as rule;
ghost use Rattle.pyd_scope.specs.Standings as spec;
ghost use Rattle.pyd_scope.specs.Tables as tables;

use crate::marks::{add_imports, is_functional};
use crate::names::Names;
use crate::table::Known;
use pyd_names::{builtin_named, constants, functions, module_variables};
use pyd_tree::File;
use pyd_value::{Builtin, NoMemory, Text};
use std::alloc::Global;

/// What a name stands for in a routine.
#[derive(Clone, Copy)]
pub enum Standing {
    Local,
    Constant,
    /// A function, and whether it is `@functional`.
    Function(bool),
    Imported,
    Builtin(Builtin),
    Variable,
    Unbound,
}

/// The names that a routine of a file finds outside.
#[derive(Drop)]
pub struct Outside {
    pub constants: Names,
    pub functions: Names,
    /// Of each function, whether it is `@functional`.
    pub functional: Vec<bool>,
    pub imported: Names,
    pub variables: Names,
}

impl Outside {
    /// The names that a file has.
    pub fn of(alloc: Global, file: &File) -> Result<Outside, NoMemory>
        ensures { IfOk result (spec.IsOutside file.now) }
    {
        let constants = constant_names(alloc, file)?;
        let functions = function_names(alloc, file)?;
        let functional = functional(alloc, file)?;
        let imported = imported_names(alloc, file)?;
        let variables = variable_names(alloc, file)?;
        Ok(Outside {
            constants,
            functions,
            functional,
            imported,
            variables,
        })
    }

    /// What a name stands for that is no local.
    pub fn standing(&self, name: &Text) -> Standing
        ensures { result ≡ spec.standing_outside self.now name.now }
    {
        if self.constants.contains(name) {
            return Standing::Constant;
        }
        match self.functions.place(name) {
            Some(place) => self.function(place),
            None => self.beyond(name),
        }
    }

    /// The function at a place, counted from 0.
    fn function(&self, place: usize) -> Standing
        ensures { result ≡ spec.function_standing self.now.functional.items (Some place) Unbound }
    {
        Standing::Function(self.functional.get(place).copied().unwrap_or(false))
    }

    /// What a name stands for that is no local, no constant and no function.
    fn beyond(&self, name: &Text) -> Standing
        ensures { result ≡ spec.standing_beyond self.now name.now }
    {
        if self.imported.contains(name) {
            return Standing::Imported;
        }
        match builtin_named(name) {
            Some(builtin) => Standing::Builtin(builtin),
            None => self.variable(name),
        }
    }

    fn variable(&self, name: &Text) -> Standing
        ensures { result ≡ spec.variable_standing (is_among self.now.variables name.now) }
    {
        if self.variables.contains(name) {
            Standing::Variable
        } else {
            Standing::Unbound
        }
    }

    /// What is known of a name beside these locals.
    pub fn known(&self, locals: &Names, name: &Text) -> Known
        ensures { result ≡ tables.known_in self.now locals.now name.now }
    {
        if let Some(place) = locals.place(name) {
            return Known::Slot(place);
        }
        if let Some(place) = self.constants.place(name) {
            return Known::Constant(place);
        }
        match self.functions.place(name) {
            Some(place) => Known::Routine(place),
            None => self.known_beyond(name),
        }
    }

    /// What is known of a name that is no local, no constant and no function.
    fn known_beyond(&self, name: &Text) -> Known
        ensures { result ≡ tables.known_beyond self.now name.now }
    {
        if self.imported.contains(name) {
            return Known::Imported;
        }
        match builtin_named(name) {
            Some(builtin) => Known::Builtin(builtin),
            None if self.variables.contains(name) => Known::Variable,
            None => Known::Unbound,
        }
    }

    /// What a name stands for beside these locals.
    pub fn standing_in(&self, locals: &Names, name: &Text) -> Standing
        ensures { result ≡ spec.standing_in self.now locals.now name.now }
    {
        if locals.contains(name) {
            Standing::Local
        } else {
            self.standing(name)
        }
    }
}

fn constant_names(alloc: Global, file: &File) -> Result<Names, NoMemory>
    ensures { IfOk result (λ made. made ≡ map (λ c. c.0) (names.constants file.now)) }
{
    let known = constants(alloc, file)?;
    let mut made = Names::new(alloc);
    for constant in known.as_slice() {
        made.add(&constant.0)?;
    }
    Ok(made)
}

/// The names of the functions.
pub fn function_names(alloc: Global, file: &File) -> Result<Names, NoMemory>
    ensures { IfOk result (λ made. made ≡ rule.function_names file.now) }
{
    let funcs = functions(alloc, file)?;
    let mut made = Names::new(alloc);
    for func in &funcs {
        made.add(&func.name)?;
    }
    Ok(made)
}

fn functional(alloc: Global, file: &File) -> Result<Vec<bool>, NoMemory>
    ensures { IfOk result (λ made. made.items ≡ map rule.is_functional (names.functions file.now)) }
{
    let funcs = functions(alloc, file)?;
    let mut made = Vec::new(alloc);
    for func in &funcs {
        made.push(is_functional(func))?;
    }
    Ok(made)
}

fn variable_names(alloc: Global, file: &File) -> Result<Names, NoMemory>
    ensures { IfOk result (λ made. made ≡ names.module_variables file.now) }
{
    let variables = module_variables(alloc, file)?;
    Names::of(alloc, variables.as_slice())
}

/// The names that a file imports.
pub fn imported_names(alloc: Global, file: &File) -> Result<Names, NoMemory>
    ensures { IfOk result (λ made. made ≡ names.imported_names file.now) }
{
    let mut made = Names::new(alloc);
    for item in file.items.as_slice() {
        add_imports(&mut made, item)?;
    }
    Ok(made)
}
