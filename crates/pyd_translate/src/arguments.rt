//! Lists of arguments.
ghost use Rattle.std.specs.Prelude.{◌≡◌, [], ◌∷◌, ◌++◌, IfOk, OnOk};

use pyd_ir::Arg;
use pyd_value::{List, NoMemory};
use std::alloc::Global;

/// One argument.
pub(crate) fn one(alloc: Global, a: Arg) -> Result<List<Arg>, NoMemory>
    ensures { IfOk result (λ args. args ≡ a ∷ []) }
{
    let mut args = List::new(alloc);
    args.add(a)?;
    Ok(args)
}

/// Copies of two.
pub(crate) fn pair(alloc: Global, a: &Arg, b: &Arg) -> Result<List<Arg>, NoMemory>
    ensures { IfOk result (λ args. args ≡ a.now ∷ b.now ∷ []) }
{
    let mut args = List::new(alloc);
    args.add(a.try_copy(alloc)?)?;
    args.add(b.try_copy(alloc)?)?;
    Ok(args)
}

/// Puts copies at the end.
pub(crate) fn append(alloc: Global, args: &mut List<Arg>, more: &[Arg]) -> Result<(), NoMemory>
    ensures { OnOk result (args.new ≡ args.old ++ more.now) }
{
    for a in more {
        args.add(a.try_copy(alloc)?)?;
    }
    Ok(())
}

/// Copies of arguments.
pub fn copies(alloc: Global, args: &[Arg]) -> Result<List<Arg>, NoMemory>
    ensures { IfOk result (λ list. list ≡ args.now) }
{
    let mut list = List::new(alloc);
    append(alloc, &mut list, args)?;
    Ok(list)
}
