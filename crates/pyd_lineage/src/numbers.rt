//! Sets of the numbers of nodes.
ghost use Rattle.std.specs.Prelude.{[], ◌∷◌, IfOk, OnOk};
ghost use Rattle.pyd_lineage.specs.Marking.{Adds, IsSetOf};

use pyd_value::NoMemory;
use std::alloc::Global;
use std::collections::BTreeSet;

/// The set of these numbers.
pub(crate) fn set_of(alloc: Global, numbers: &[u64]) -> Result<BTreeSet<u64>, NoMemory>
    ensures { IfOk result (λ set. IsSetOf set numbers.now) }
{
    let mut set = BTreeSet::new(alloc);
    for number in numbers {
        add_number(&mut set, *number)?;
    }
    Ok(set)
}

/// Puts a number into the set.
pub(crate) fn add_number(set: &mut BTreeSet<u64>, number: u64) -> Result<(), NoMemory>
    ensures { OnOk result (Adds set.old set.new (number ∷ [])) }
{
    set.insert(number)?;
    Ok(())
}
