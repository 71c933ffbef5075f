//! Writes the text of nodes (docs/FORMATS.md, "Graphs").
ghost use Rattle.std.specs.Prelude.{◌≡◌, [], ◌∷◌, ◌++◌, IfOk, OnOk, string_bytes};
ghost use Rattle.pyd_graph.specs.GraphText as spec;

use crate::arguments::{push_bytes, push_field, push_fields, push_number};
use crate::names::{fault_name, push_operator};
use pyd_ir::{Arg, Node, Work};
use pyd_scope::Routine;
use pyd_value::NoMemory;
use std::alloc::Global;

/// The text of these nodes of a program with these routines: a line for each.
pub fn nodes_text(alloc: Global, routines: &[Routine], nodes: &[Node]) -> Result<Vec<u8>, NoMemory>
    ensures { IfOk result (λ text. text.items ≡ spec.nodes_text routines.now nodes.now) }
{
    let mut text = String::new(alloc);
    for node in nodes {
        push_line(&mut text, routines, node)?;
    }
    Ok(text.into_bytes())
}

/// Appends the line of a node.
fn push_line(text: &mut String, routines: &[Routine], node: &Node) -> Result<(), NoMemory>
    ensures { OnOk result
        (string_bytes text.new ≡ string_bytes text.old ++ spec.line_text routines.now node.now) }
{
    push_number(text, node.id)?;
    push_bytes(text, " ")?;
    push_number(text, u64::from(node.line))?;
    push_bytes(text, " ")?;
    push_work(text, routines, &node.work)?;
    push_bytes(text, "\n")
}

/// Appends what a node does and its arguments.
fn push_work(text: &mut String, routines: &[Routine], work: &Work) -> Result<(), NoMemory>
    ensures { OnOk result
        (string_bytes text.new ≡ string_bytes text.old ++ spec.work_text routines.now work.now) }
{
    match work {
        Work::Op { op, args } => {
            push_operator(text, *op)?;
            push_fields(text, args.as_slice())
        }
        Work::Read { arg, .. } => push_one(text, "Read", arg),
        Work::Call { func, args } => push_call(text, "Call ", routines, *func, args.as_slice()),
        Work::Stop(fault) => {
            push_bytes(text, "Stop ")?;
            push_bytes(text, fault_name(*fault))
        }
        Work::Print(args) => {
            push_bytes(text, "Print")?;
            push_fields(text, args.as_slice())
        }
        Work::Run { func, args } => push_call(text, "Run ", routines, *func, args.as_slice()),
        Work::Cond { test, .. } => push_one(text, "Cond", test),
        Work::While { test, .. } => push_one(text, "While", test),
        Work::For { over, .. } => push_one(text, "For", over),
        Work::Pick { test, .. } => push_one(text, "Pick", test),
        Work::Enter { func, args } => push_call(text, "Enter ", routines, *func, args.as_slice()),
    }
}

/// Appends a word, and one argument behind it.
fn push_one(text: &mut String, word: &str, arg: &Arg) -> Result<(), NoMemory>
    ensures { OnOk result (string_bytes text.new
        ≡ string_bytes text.old ++ (word.now ++ spec.fields_text (arg.now ∷ []))) }
{
    push_bytes(text, word)?;
    push_field(text, arg)
}

/// Appends the word of a call, the function's name, and its arguments.
fn push_call(
    text: &mut String,
    word: &str,
    routines: &[Routine],
    func: u32,
    args: &[Arg],
) -> Result<(), NoMemory>
    ensures { OnOk result (string_bytes text.new ≡ string_bytes text.old
        ++ ((word.now ++ spec.function_name routines.now func) ++ spec.fields_text args.now)) }
{
    push_bytes(text, word)?;
    push_function(text, routines, func)?;
    push_fields(text, args)
}

/// Appends the name of a function.
fn push_function(text: &mut String, routines: &[Routine], func: u32) -> Result<(), NoMemory>
    ensures { OnOk result (string_bytes text.new
        ≡ string_bytes text.old ++ spec.function_name routines.now func) }
{
    match routines.get(func as usize) {
        Some(routine) => push_bytes(text, routine.name.as_str()),
        None => push_bytes(text, "?"),
    }
}
