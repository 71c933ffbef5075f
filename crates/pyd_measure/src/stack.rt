//! The measures of the pieces that are read so far.
ghost use Rattle.std.specs.Prelude.{◌≡◌, [], ◌∷◌, drop, get_or, IfOk};
ghost use Rattle.pyd_measure.specs.declared.measures.Measure.TheVariants.{Nothing};

use crate::measures::Measure;
use pyd_value::NoMemory;
use std::alloc::Global;
use std::marker::Model;

/// A `Vec` that contracts see as the list of its measures from the last to the first.
#[derive(Drop)]
pub struct Stack {
    items: Vec<Measure>,
}

impl Model for Stack {
    ghost use Rattle.std.specs.Prelude.{List, reverse};
    ghost use Rattle.pyd_measure.specs.declared.measures.Measure.{Measure};

    ghost Value = { List Measure };

    ghost view = { λ s. reverse s.items.items };
}

impl Stack {
    /// Nothing yet; it grows on this allocator.
    pub fn new(alloc: Global) -> Stack
        ensures { result ≡ [] }
    {
        Stack {
            items: Vec::new(alloc),
        }
    }

    /// The measure at this place from the front, or that of a missing part.
    pub fn at(&self, place: usize) -> Measure
        ensures { result ≡ get_or self.now place Nothing }
    {
        let count = self.items.len();
        if place < count {
            self.items[count - 1 - place]
        } else {
            Measure::Nothing
        }
    }

    /// Takes so many measures off the front.
    pub fn take_off(&mut self, count: usize)
        ensures { self.new ≡ drop count self.old }
    {
        let left = self.items.len().saturating_sub(count);
        self.items.truncate(left);
    }

    /// Puts a measure at the front.
    pub fn push(&mut self, measure: Measure) -> Result<(), NoMemory>
        ensures { IfOk result (λ _. self.new ≡ measure ∷ self.old) }
    {
        self.items.push(measure)?;
        Ok(())
    }
}
