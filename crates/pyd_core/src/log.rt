//! The journal of a run.
ghost use Rattle.std.specs.Prelude.{◌^◌, ◌<◌, vec_capacity};

use pyd_board::{Act, Event};
use pyd_value::NoMemory;
use std::alloc::Global;
use std::cmp;

/// The most entries.
const MOST: usize = 0x3ff_ffff_ffff_ffff;

/// The entries of a run, and how many are by each seat. There is room for fewer than 2^58.
#[derive(Drop)]
pub struct Log {
    pub journal: Vec<Event>,
    pub counts: Vec<u64>,
    pub ghost few: { vec_capacity journal < 2 ^ 58 },
}

impl Log {
    ghost use Rattle.std.specs.Prelude.{◌≡◌, ◌≤◌, ◌+◌, ◌∷◌, [], ◌++◌, OnOk, IfOk, length, vec_len};
    ghost use Rattle.pyd_boards.specs.Boards.{entry};
    ghost use Rattle.pyd_core.specs.Log.{IsCounted};

    /// A journal without entries, by so many seats, with room for so many.
    pub(crate) fn start(alloc: Global, seats: usize, entries: usize) -> Result<Log, NoMemory>
        ensures journal { IfOk result (λ log. log.journal.items ≡ []) }
        ensures counted { IfOk result (λ log. IsCounted log) }
        ensures seats { IfOk result (λ log. length log.counts.items ≡ seats) }
        ensures room { IfOk result (λ log. entries ≤ vec_capacity log.journal) }
    {
        if entries > MOST {
            return Err(NoMemory);
        }
        let counts = Vec::from_elem(alloc, 0, seats)?;
        let journal = Vec::with_capacity(alloc, entries)?;
        Ok(Log { journal, counts })
    }

    /// Makes room for so many entries more. Where more is made it is made for as many as there are,
    /// too.
    pub(crate) fn make_room(&mut self, entries: usize) -> Result<(), NoMemory>
        ensures room { OnOk result
            (vec_len self.new.journal + entries ≤ vec_capacity self.new.journal) }
        ensures journal { self.new.journal.items ≡ self.old.journal.items }
        ensures counts { self.new.counts ≡ self.old.counts }
        ensures grows { vec_capacity self.old.journal ≤ vec_capacity self.new.journal }
    {
        let len = self.journal.len();
        if entries <= self.journal.capacity() - len {
            return Ok(());
        }
        if entries > MOST - len {
            return Err(NoMemory);
        }
        let more = cmp::max(entries, cmp::min(len, MOST - len));
        self.journal.reserve_exact(more)?;
        Ok(())
    }

    /// Appends an entry by a seat, for which there is room.
    pub(crate) fn note(&mut self, seat: u32, act: Act)
        requires room { vec_len self.old.journal < vec_capacity self.old.journal }
        requires seat { seat < length self.old.counts.items }
        requires counted { IsCounted self.old }
        ensures journal { self.new.journal.items ≡ self.old.journal.items
            ++ entry self.old.journal.items seat act ∷ [] }
        ensures counted { IsCounted self.new }
        ensures seats { length self.new.counts.items ≡ length self.old.counts.items }
        ensures capacity { vec_capacity self.new.journal ≡ vec_capacity self.old.journal }
    {
        let nth = self.counts[seat as usize];
        self.counts[seat as usize] = nth + 1;
        self.journal.push_reserved(Event { by: seat, nth, act });
    }
}
