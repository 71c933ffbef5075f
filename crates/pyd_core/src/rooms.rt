//! Room in the journal.
ghost use Rattle.std.specs.Prelude.{OnOk};
ghost use Rattle.pyd_core.specs.Cores.{HasRoom, IsCore};
ghost use Rattle.pyd_core.specs.Steps.{Stays};

use crate::keeper::Core;
use pyd_value::NoMemory;

impl Core {
    /// Makes room for so many entries beside all losses to come. Only room changes.
    pub fn make_room(&mut self, entries: usize) -> Result<(), NoMemory>
        requires core { IsCore self.old }
        ensures room { OnOk result (HasRoom entries self.new) }
        ensures stays { Stays self.old self.new }
    {
        let losses = self.setup.losses.len().saturating_sub(self.lost);
        self.log.make_room(entries.saturating_add(losses))
    }
}
