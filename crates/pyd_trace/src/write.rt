//! Writes the text of a trace (docs/FORMATS.md, "Traces").
ghost use Rattle.std.specs.Prelude.{◌≡◌, [], ◌∷◌, ◌++◌, IfOk, OnOk};
ghost use Rattle.std.specs.Fmt.{decimal};
ghost use Rattle.pyd_trace.specs.Text as spec;

use itoa::Buffer;
use pyd_board::{Act, Event};
use pyd_value::NoMemory;
use std::alloc::Global;

/// The first line of a trace, with its end.
pub(crate) const HEADER: &[u8] = b"pydron-trace 1\n";

/// The text of these events: the header, and a line for each.
pub fn trace_text(alloc: Global, journal: &[Event]) -> Result<Vec<u8>, NoMemory>
    ensures { IfOk result (λ text. text.items ≡ spec.trace_text journal.now) }
{
    let mut text = Vec::from_slice(alloc, HEADER)?;
    for event in journal {
        push_line(&mut text, *event)?;
    }
    Ok(text)
}

/// Appends the line of an event.
pub(crate) fn push_line(text: &mut Vec<u8>, event: Event) -> Result<(), NoMemory>
    ensures { OnOk result (text.new.items ≡ text.old.items ++ spec.line_text event) }
{
    push_number(text, u64::from(event.by))?;
    push_field(text, event.nth)?;
    text.push(b' ')?;
    push_act(text, event.act)?;
    text.push(b'\n')?;
    Ok(())
}

/// Appends the name of an act and its fields.
fn push_act(text: &mut Vec<u8>, act: Act) -> Result<(), NoMemory>
    ensures { OnOk result (text.new.items ≡ text.old.items ++ spec.act_text act) }
{
    match act {
        Act::Place(node, attempt, machine) => push_ticket(text, b"Place", node, attempt, machine),
        Act::Claim(node, attempt, machine) => push_ticket(text, b"Claim", node, attempt, machine),
        Act::Finish(node, attempt, machine) => push_ticket(text, b"Finish", node, attempt, machine),
        Act::Drop(node, attempt, machine) => push_ticket(text, b"Drop", node, attempt, machine),
        Act::Refine(node) => push_one(text, b"Refine", node),
        Act::Settle(node) => push_one(text, b"Settle", node),
        Act::Lose(machine) => push_one(text, b"Lose", u64::from(machine)),
        Act::Trim(node) => push_one(text, b"Trim", node),
    }
}

/// Appends a name, a node, its attempt and a machine.
fn push_ticket(
    text: &mut Vec<u8>,
    name: &[u8],
    node: u64,
    attempt: u64,
    machine: u32,
) -> Result<(), NoMemory>
    ensures { OnOk result (text.new.items ≡ text.old.items
        ++ (name.now ++ spec.fields_text (node ∷ attempt ∷ machine ∷ []))) }
{
    text.extend_from_slice(name)?;
    push_field(text, node)?;
    push_field(text, attempt)?;
    push_field(text, u64::from(machine))
}

/// Appends a name and one field.
fn push_one(text: &mut Vec<u8>, name: &[u8], field: u64) -> Result<(), NoMemory>
    ensures { OnOk result (text.new.items ≡ text.old.items
        ++ (name.now ++ spec.fields_text (field ∷ []))) }
{
    text.extend_from_slice(name)?;
    push_field(text, field)
}

/// Appends a space and a number.
fn push_field(text: &mut Vec<u8>, number: u64) -> Result<(), NoMemory>
    ensures { OnOk result (text.new.items ≡ text.old.items ++ spec.field_text number) }
{
    text.push(b' ')?;
    push_number(text, number)
}

/// Appends the digits of a number.
fn push_number(text: &mut Vec<u8>, number: u64) -> Result<(), NoMemory>
    ensures { OnOk result (text.new.items ≡ text.old.items ++ decimal number) }
{
    let mut buffer = Buffer::new();
    text.extend_from_slice(buffer.format(number).as_bytes())?;
    Ok(())
}
