//! Marks of nodes, one at a time.
ghost use Rattle.std.specs.Prelude.{◌≡◌, ◌<◌, None, Some, length, set};
ghost use Rattle.pyd_desk.specs.Desks.{mark_at};

use crate::desk::{Held, Mark, Placed};

/// The node has this ticket, for its last attempt.
pub(crate) fn set_ticket(marks: &mut Vec<Mark>, node: u64, ticket: Placed)
    requires { node < length marks.old.items }
    ensures { marks.new.items ≡ set marks.old.items node (record (mark_at marks.old.items node) {
      places = ticket.attempt;
      ticket = Some ticket;
    }) }
{
    let mark = &mut marks[node as usize];
    mark.places = ticket.attempt;
    mark.ticket = Some(ticket);
}

/// The node has no ticket.
pub(crate) fn drop_ticket(marks: &mut Vec<Mark>, node: u64)
    requires { node < length marks.old.items }
    ensures { marks.new.items ≡ set marks.old.items node (record (mark_at marks.old.items node) {
      ticket = None;
    }) }
{
    marks[node as usize].ticket = None;
}

/// The node has this claim in the place of its ticket. Answers the claim that it had.
pub(crate) fn set_claim(marks: &mut Vec<Mark>, node: u64, held: Held) -> Option<Held>
    requires { node < length marks.old.items }
    ensures marks { marks.new.items ≡ set marks.old.items node (record
        (mark_at marks.old.items node) { ticket = None; claim = Some held }) }
    ensures before { result ≡ (mark_at marks.old.items node).claim }
{
    let mark = &mut marks[node as usize];
    mark.ticket = None;
    mark.claim.replace(held)
}

/// The node has no claim.
pub(crate) fn drop_claim(marks: &mut Vec<Mark>, node: u64)
    requires { node < length marks.old.items }
    ensures { marks.new.items ≡ set marks.old.items node (record (mark_at marks.old.items node) {
      claim = None;
    }) }
{
    marks[node as usize].claim = None;
}

/// The node's record is in the store of a machine, and its claim is done.
pub(crate) fn set_machine(marks: &mut Vec<Mark>, node: u64, machine: u32)
    requires { node < length marks.old.items }
    ensures { marks.new.items ≡ set marks.old.items node (record (mark_at marks.old.items node) {
      machine = Some machine;
      claim = None;
    }) }
{
    let mark = &mut marks[node as usize];
    mark.machine = Some(machine);
    mark.claim = None;
}
