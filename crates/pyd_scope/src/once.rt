//! Which names the statements of a module bind once.
ghost use Rattle.std.specs.Prelude.{◌≡◌, [], ◌∷◌, ◌++◌, IfOk, OnOk, if◌then◌else◌};
ghost use Rattle.pyd_names.specs.Binding as names;
ghost use Rattle.pyd_scope.specs.Once as spec;

use crate::names::Names;
use pyd_names::statement_bindings;
use pyd_tree::{File, Item};
use pyd_value::{List, NoMemory, Text};
use std::alloc::Global;

/// The names that are bound, and those of them that are bound again.
#[derive(Drop)]
pub struct Once {
    pub bound: Names,
    pub again: Names,
}

impl Once {
    /// Tells of each name whether the statements of a module bind it once.
    pub fn of(alloc: Global, file: &File) -> Result<Once, NoMemory>
        ensures bound { IfOk result (λ once. once.bound ≡ names.statement_names file.now) }
        ensures again { IfOk result (λ once.
            once.again ≡ spec.repeated [] (names.statement_names file.now)) }
    {
        let all = statement_names(alloc, file)?;
        let mut bound = Names::new(alloc);
        let mut again = Names::new(alloc);
        for name in all.as_slice() {
            note(&mut bound, &mut again, name)?;
        }
        Ok(Once { bound, again })
    }

    /// Whether a name is bound, and not again.
    pub fn has(&self, name: &Text) -> bool
        ensures { result ≡ spec.has_once self.now name.now }
    {
        self.bound.contains(name) && !self.again.contains(name)
    }
}

fn note(bound: &mut Names, again: &mut Names, name: &Text) -> Result<(), NoMemory>
    ensures bound { OnOk result (bound.new ≡ bound.old ++ name.now ∷ []) }
    ensures again { OnOk result (again.new ≡ again.old ++ spec.if_among bound.old name.now) }
{
    if bound.add(name)? {
        again.add(name)?;
    }
    Ok(())
}

/// The names that the statements bind, as often as they do.
fn statement_names(alloc: Global, file: &File) -> Result<List<Text>, NoMemory>
    ensures { IfOk result (λ list. list ≡ names.statement_names file.now) }
{
    let mut out = List::new(alloc);
    for item in file.items.as_slice() {
        add_item(alloc, item, &mut out)?;
    }
    Ok(out)
}

fn add_item(alloc: Global, item: &Item, out: &mut List<Text>) -> Result<(), NoMemory>
    ensures { OnOk result (out.new ≡ out.old ++ names.names_of (names.item_bindings item.now)) }
{
    let Item::Stmt(stmt) = item else {
        return Ok(());
    };
    let bindings = statement_bindings(alloc, stmt)?;
    for binding in bindings.as_slice() {
        let name = binding.name.try_clone()?;
        out.add(name)?;
    }
    Ok(())
}
