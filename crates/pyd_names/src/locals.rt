//! The names that are local to a routine, each once.
ghost use Rattle.std.specs.Prelude.{◌≡◌, [], ◌∷◌, ◌++◌, map, IfOk, OnOk};
ghost use Rattle.pyd_names.specs.Binding as spec;

use crate::{Binding, bindings, module_bindings};
use pyd_tree::{File, Func};
use pyd_value::{List, NoMemory, Text};
use std::alloc::Global;
use std::collections::BTreeSet;

/// The module variables: the names that the module statements bind, in the order in which they come first.
pub fn module_variables(alloc: Global, file: &File) -> Result<List<Text>, NoMemory>
    ensures { IfOk result (λ list. list ≡ spec.module_variables file.now) }
{
    let bound = module_bindings(alloc, file)?;
    let mut names = List::new(alloc);
    add_bound(bound.as_slice(), &mut names)?;
    distinct(alloc, names.as_slice())
}

/// A function's parameters, and then the other names that it binds, in text order.
pub fn function_locals(alloc: Global, func: &Func) -> Result<List<Text>, NoMemory>
    ensures { IfOk result (λ list. list ≡ spec.function_locals func.now) }
{
    let mut names = List::new(alloc);
    add_parameters(func.params.as_slice(), &mut names)?;
    let bound = bindings(alloc, &func.body)?;
    add_bound(bound.as_slice(), &mut names)?;
    distinct(alloc, names.as_slice())
}

/// The names in the order in which they come first, each once.
pub fn distinct(alloc: Global, names: &[Text]) -> Result<List<Text>, NoMemory>
    ensures { IfOk result (λ list. list ≡ spec.distinct names.now) }
{
    let mut seen = BTreeSet::new(alloc);
    let mut out = List::new(alloc);
    for name in names {
        let key = name.try_clone()?;
        if seen.insert(key)? {
            let name = name.try_clone()?;
            out.add(name)?;
        }
    }
    Ok(out)
}

fn add_parameters(params: &[(u32, Text)], out: &mut List<Text>) -> Result<(), NoMemory>
    ensures { OnOk result (out.new ≡ out.old ++ map (λ p. p.1) params.now) }
{
    for param in params {
        let name = param.1.try_clone()?;
        out.add(name)?;
    }
    Ok(())
}

fn add_bound(bindings: &[Binding], out: &mut List<Text>) -> Result<(), NoMemory>
    ensures { OnOk result (out.new ≡ out.old ++ spec.names_of bindings.now) }
{
    for binding in bindings {
        let name = binding.name.try_clone()?;
        out.add(name)?;
    }
    Ok(())
}
