//! Parameters with one name (Python Language Reference, section 8.7, "Function definitions").
ghost use Rattle.std.specs.Prelude.{◌≡◌, [], map, IfOk};
ghost use Rattle.pyd_scope.specs.Least.{least};
ghost use Rattle.pyd_scope.specs.Rules as rule;

use crate::least::lesser;
use crate::names::Names;
use pyd_tree::{File, Item};
use pyd_value::{NoMemory, Text};
use std::alloc::Global;

/// The least line of a `def` that has a parameter's name twice.
pub fn twice_parameter(alloc: Global, file: &File) -> Result<Option<u32>, NoMemory>
    ensures { IfOk result (λ line. line ≡ least (rule.twice_parameter file.now)) }
{
    let mut line = None;
    for item in file.items.as_slice() {
        line = lesser(line, twice_in(alloc, item)?);
    }
    Ok(line)
}

fn twice_in(alloc: Global, item: &Item) -> Result<Option<u32>, NoMemory>
    ensures { IfOk result (λ line. line ≡ least (rule.twice_in item.now)) }
{
    match item {
        Item::Import(_, _, _) | Item::Stmt(_) => Ok(None),
        Item::Def(func) => {
            if is_repeating(alloc, func.params.as_slice())? {
                Ok(Some(func.line))
            } else {
                Ok(None)
            }
        }
    }
}

/// Whether a parameter's name occurs twice.
fn is_repeating(alloc: Global, params: &[(u32, Text)]) -> Result<bool, NoMemory>
    ensures { IfOk result (λ r. r ≡ rule.is_repeating [] (map (λ p. p.1) params.now)) }
{
    let mut before = Names::new(alloc);
    for param in params {
        if before.add(&param.1)? {
            return Ok(true);
        }
    }
    Ok(false)
}
