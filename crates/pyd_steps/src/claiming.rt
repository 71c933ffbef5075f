//! Claims of tickets, behind the losses that are due.
ghost use Rattle.std.specs.Prelude.{IfOk, OnErr, option_map};
ghost use Rattle.pyd_boards.specs.Boards.{IsSeatIn};
ghost use Rattle.pyd_runs.specs.Enabled.{IsUnbarred};
ghost use Rattle.pyd_core.specs.Cores.{IsCore, state_of};
ghost use Rattle.pyd_core.specs.Steps.{ComesBy, Stays};
ghost use Rattle.pyd_steps.specs.Claiming.{Claims, ClaimsNow};
ghost use Rattle.pyd_steps.specs.Losses.{MayLose, losses_first};
ghost use Rattle.pyd_steps.specs.Placers.{AsksBetween};

use crate::losing::lose_due;
use pyd_board::{Placer, Ticket, Who};
use pyd_boards::Claimed;
use pyd_core::Core;
use pyd_ir::Job;
use pyd_runs::beginning_law;
use pyd_value::NoMemory;

/// The losses that are due come, and the placer is told of them; then a seat claims a ticket. Where
/// there is no memory, the losses alone.
pub fn claim(
    core: &mut Core,
    placer: &mut Option<Box<dyn Placer + Send>>,
    halted: bool,
    ticket: Ticket,
    who: Who,
) -> Result<Claimed<Job>, NoMemory>
    requires core { IsCore core.old }
    requires who { IsSeatIn core.old.setup who }
    requires losses { MayLose core.old who.seat }
    ensures claims { IfOk result (Claims halted core.old core.new ticket who) }
    ensures memory { OnErr result (ComesBy core.old core.new (losses_first who.seat core.old)) }
    ensures asks { AsksBetween core.old core.new
        (option_map (λ b. calls b) placer.old) (option_map (λ b. calls b) placer.new) }
{
    beginning_law();
    lose_due(core, placer, who.seat);
    claim_now(core, halted, ticket, who)
}

/// A seat claims a ticket where no loss is due.
fn claim_now(
    core: &mut Core,
    halted: bool,
    ticket: Ticket,
    who: Who,
) -> Result<Claimed<Job>, NoMemory>
    requires core { IsCore core.old }
    requires who { IsSeatIn core.old.setup who }
    requires unbarred { IsUnbarred (state_of core.old) }
    ensures claims { IfOk result (ClaimsNow halted core.old core.new ticket who) }
    ensures memory { OnErr result (Stays core.old core.new) }
{
    if core.has_ended() || halted {
        return Ok(Claimed::Over);
    }
    if core.is_lost(who.machine) {
        return Ok(Claimed::Lost(ticket));
    }
    match core.claim(who.seat, ticket.node, ticket.attempt, who.machine)? {
        Some(job) => Ok(Claimed::Job(job)),
        None => Ok(Claimed::Stale),
    }
}
