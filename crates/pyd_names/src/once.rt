//! Which names are bound once.
ghost use Rattle.std.specs.Prelude.{◌≡◌, IfOk};
ghost use Rattle.pyd_names.specs.Once.{has_once, have_once, Tells};

use crate::Binding;
use pyd_value::{NoMemory, Text};
use std::alloc::Global;
use std::collections::BTreeSet;

/// The names that are bound, and those of them that are bound again.
#[derive(Drop)]
pub(crate) struct Once {
    bound: BTreeSet<Text>,
    again: BTreeSet<Text>,
}

impl Once {
    /// Tells of each name whether these bindings have it once.
    pub(crate) fn of(alloc: Global, bindings: &[Binding]) -> Result<Once, NoMemory>
        ensures { IfOk result (λ once. Tells once (have_once bindings.now)) }
    {
        let mut bound = BTreeSet::new(alloc);
        let mut again = BTreeSet::new(alloc);
        for binding in bindings {
            let name = binding.name.try_clone()?;
            if !bound.insert(name)? {
                let name = binding.name.try_clone()?;
                again.insert(name)?;
            }
        }
        Ok(Once { bound, again })
    }

    /// Whether a name is bound once.
    pub(crate) fn has(&self, name: &Text) -> bool
        ensures { result ≡ has_once self.now name.now }
    {
        self.bound.contains(name) && !self.again.contains(name)
    }
}
