//! Names that are found without looking through them all.
ghost use Rattle.std.specs.Prelude.{◌≡◌, [], ◌∷◌, ◌++◌, IfOk, OnErr, OnOk};
ghost use Rattle.pyd_names.specs.Binding.{is_among};
ghost use Rattle.pyd_scope.specs.Places as spec;

use pyd_value::{NoMemory, Text};
use std::alloc::Global;
use std::collections::BTreeMap;
use std::marker::Model;

/// Names in order, which contracts see as their list. A tree has the first place of each.
#[derive(Drop)]
pub struct Names {
    names: Vec<Text>,
    places: BTreeMap<Text, usize>,
}

impl Model for Names {
    ghost use Rattle.std.specs.Prelude.{List, ℕ};
    ghost use Rattle.pyd_scope.specs.Places.{ArePlaces};

    ghost Value = { List (List ℕ) };

    ghost view = { λ n. n.names.items };

    ghost invariant = { λ n. ArePlaces n.names.items n.places };
}

impl Names {
    /// No names.
    pub fn new(alloc: Global) -> Names
        ensures { result ≡ [] }
    {
        Names {
            names: Vec::new(alloc),
            places: BTreeMap::new(alloc),
        }
    }

    /// The first place of a name, counted from 0.
    pub fn place(&self, name: &Text) -> Option<usize>
        ensures { result ≡ spec.place self.now name.now }
    {
        self.places.get(name).copied()
    }

    pub fn contains(&self, name: &Text) -> bool
        ensures { result ≡ is_among self.now name.now }
    {
        self.place(name).is_some()
    }

    /// Puts a name at the end, and says whether it was there before.
    pub fn add(&mut self, name: &Text) -> Result<bool, NoMemory>
        ensures ok { OnOk result (self.new ≡ self.old ++ name.now ∷ []) }
        ensures found { IfOk result (λ found. found ≡ is_among self.old name.now) }
        ensures same { OnErr result (self.new ≡ self.old) }
    {
        let found = self.contains(name);
        let place = self.names.as_slice().len();
        self.names.push(name.try_clone()?)?;
        if found {
            return Ok(true);
        }
        let key = match name.try_clone() {
            Ok(key) => key,
            Err(NoMemory) => {
                self.names.pop();
                return Err(NoMemory);
            }
        };
        match self.places.insert(key, place) {
            Ok(_) => Ok(false),
            Err(_) => {
                self.names.pop();
                Err(NoMemory)
            }
        }
    }

    /// Puts names at the end.
    pub fn add_all(&mut self, names: &[Text]) -> Result<(), NoMemory>
        ensures { OnOk result (self.new ≡ self.old ++ names.now) }
    {
        for name in names {
            self.add(name)?;
        }
        Ok(())
    }

    /// These names.
    pub fn of(alloc: Global, names: &[Text]) -> Result<Names, NoMemory>
        ensures { IfOk result (λ made. made ≡ names.now) }
    {
        let mut made = Names::new(alloc);
        made.add_all(names)?;
        Ok(made)
    }
}
