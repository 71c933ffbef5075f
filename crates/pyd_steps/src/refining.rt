//! Refining the first composite that may be refined.
ghost use Rattle.std.specs.Prelude.{IfOk, MatchBool, OnErr};
ghost use Rattle.pyd_runs.specs.Enabled.{IsQuiet};
ghost use Rattle.pyd_runs.specs.Plans.{IsSeat};
ghost use Rattle.pyd_core.specs.Cores.{IsCore, plan_of, state_of};
ghost use Rattle.pyd_core.specs.Settling.{NoneSettles};
ghost use Rattle.pyd_core.specs.Steps.{Stays};
ghost use Rattle.pyd_steps.specs.Refining.{RefinesFirst, RefinesNone};

use pyd_core::Core;
use pyd_value::NoMemory;

/// A seat refines the first composite of the chain that may be refined, if there is one.
pub fn refine_first(core: &mut Core, seat: u32) -> Result<bool, NoMemory>
    requires core { IsCore core.old }
    requires quiet { IsQuiet (state_of core.old) }
    requires seat { IsSeat (plan_of core.old) seat }
    requires no_settle { NoneSettles (state_of core.old) }
    ensures refines { IfOk result (λ refined. MatchBool refined
        (RefinesFirst core.old core.new seat) (RefinesNone core.old core.new)) }
    ensures memory { OnErr result (Stays core.old core.new) }
{
    match core.first_refinable() {
        Some(at) => {
            core.refine(seat, at)?;
            Ok(true)
        }
        None => Ok(false),
    }
}
