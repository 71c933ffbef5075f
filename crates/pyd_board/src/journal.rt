//! A list of events on its own.
ghost use Rattle.std.specs.Prelude.{◌≡◌, ◌++◌, ◌∷◌, [], OnOk, OnErr};
ghost use Rattle.pyd_board.specs.Histories as spec;

use crate::{Act, Event, Kept};
use pyd_value::NoMemory;
use std::alloc::Global;

/// The least value that a lock can keep: events that belong to no run.
#[derive(Debug, Drop)]
pub struct Journal {
    events: Vec<Event>,
}

impl Kept for Journal {
    ghost use Rattle.std.specs.Prelude.{[]};
    ghost use Rattle.pyd_board.specs.Histories.{events_alone};

    ghost name = { λ _. [] };

    ghost history = { λ journal. events_alone journal.events.items };
}

impl Journal {
    /// A journal without entries, which grows on this allocator.
    pub fn new(alloc: Global) -> Journal
        ensures { result.events.items ≡ [] }
    {
        Journal {
            events: Vec::new(alloc),
        }
    }

    /// Appends an entry by the seat. Where there is no memory, nothing changes.
    pub fn append(&mut self, by: u32, act: Act) -> Result<(), NoMemory>
        ensures ok { OnOk result (self.new.events.items ≡ self.old.events.items
            ++ record { by = by; nth = spec.entries by self.old.events.items; act = act } ∷ []) }
        ensures extends { OnOk result (spec.ExtendsBy by
            (spec.events_alone self.old.events.items) (spec.events_alone self.new.events.items)) }
        ensures same { OnErr result (self.new.events.items ≡ self.old.events.items) }
    {
        let nth = entries(by, self.events()) as u64;
        self.events.push(Event { by, nth, act })?;
        Ok(())
    }

    /// The entries in order.
    pub fn events(&self) -> &[Event]
        ensures { result.now ≡ self.now.events.items }
    {
        self.events.as_slice()
    }
}

/// How many of the events are by the seat. Takes no memory.
pub fn entries(by: u32, events: &[Event]) -> usize
    ensures { result ≡ spec.entries by events.now }
{
    events.iter().filter(|event| event.by == by).count()
}
