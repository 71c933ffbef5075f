//! The caller that the page of `pyd_board` on calling shows.
ghost use Rattle.std.specs.Prelude.{OnOk};
ghost use Rattle.pyd_board.specs.Histories.{ExtendsBy, events_alone};

use pyd_board::{Act, Journal, extensions_by_one_seat_are_one};
use pyd_value::NoMemory;

/// Settles two nodes, one after the other.
pub fn settle_both(journal: &mut Journal, by: u32, nodes: (u64, u64)) -> Result<(), NoMemory>
    ensures { OnOk result (ExtendsBy by
        (events_alone journal.old.events.items) (events_alone journal.new.events.items)) }
{
    journal.append(by, Act::Settle(nodes.0))?;
    journal.append(by, Act::Settle(nodes.1))?;
    extensions_by_one_seat_are_one();
    Ok(())
}
