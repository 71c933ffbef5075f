//! Composites of small scripts, and the pieces that take their place.

mod rows;
mod writing;

use crate::reading::program_of;
use crate::replacing::replaced;
use pyd_ir::Node;
use pyd_meaning::Limits;
use pyd_refine::refine;
use pyd_scope::Program;
use pyd_translate::{Piece, unfold_script};
use pyd_value::{List, NoMemory, Value, try_copy};
use std::alloc::Global;
use std::test::Fail;
use writing::piece_text;

/// Two numbers, of turns and of depth.
fn limits_of(words: &str) -> Option<Limits> {
    let (turns, depth) = words.split_once(' ')?;
    Some(Limits {
        turns: turns.parse().ok()?,
        depth: depth.parse().ok()?,
    })
}

/// The value of a control: a truth value, or a constant of the program by its name.
fn control_of(alloc: Global, program: &Program, word: &str) -> Result<Option<Value>, NoMemory> {
    if word == "True" || word == "False" {
        return Ok(Some(Value::Bool(word == "True")));
    }
    for (name, value) in program.constants.as_slice() {
        if name.as_str() == word {
            return Ok(Some(try_copy(alloc, value)?));
        }
    }
    Ok(None)
}

/// The node of a number.
fn node_of(nodes: &[Node], id: u64) -> Option<&Node> {
    for node in nodes {
        if node.id == id {
            return Some(node);
        }
    }
    None
}

/// A script whose composites are refined one after another.
#[derive(Drop)]
struct Refining<'a> {
    alloc: Global,
    program: &'a Program,
    limits: Limits,
    nodes: List<Node>,
    /// The first number that no node has.
    next: u64,
    /// The last piece.
    text: String,
}

impl<'a> Refining<'a> {
    fn new(alloc: Global, program: &'a Program, limits: Limits) -> Result<Refining<'a>, NoMemory> {
        let script = unfold_script(alloc, program)?;
        Ok(Refining {
            alloc,
            program,
            limits,
            nodes: script.nodes,
            next: script.next,
            text: String::new(alloc),
        })
    }

    /// Refines a composite: its number, and its control, or any other word where that is absent.
    fn step(&mut self, words: &str) -> Result<(), Fail> {
        let (id, word) = words.split_once(' ').ok_or("a control")?;
        let id = id.parse().ok().ok_or("a number")?;
        let control = control_of(self.alloc, self.program, word)?;
        let done = self.refine(id, control.as_ref());
        drop(control);
        done
    }

    fn refine(&mut self, id: u64, control: Option<&Value>) -> Result<(), Fail> {
        let node = node_of(self.nodes.as_slice(), id).ok_or("a node")?;
        let piece = refine(
            self.alloc,
            self.program,
            self.limits,
            node,
            control,
            self.next,
        )?;
        let done = self.take(id, &piece);
        drop(piece);
        done
    }

    fn take(&mut self, id: u64, piece: &Piece) -> Result<(), Fail> {
        self.text = piece_text(self.alloc, self.program, piece)?;
        self.nodes = replaced(self.alloc, self.nodes.as_slice(), id, piece)?;
        self.next = piece.next;
        Ok(())
    }
}

/// The last of the pieces that a row asks for, and what the row says of it.
fn last_piece<'a>(
    alloc: Global,
    program: &Program,
    row: &'a str,
) -> Result<(String, &'a str), Fail> {
    let (asked, wanted) = row.split_once('\n').ok_or("a piece")?;
    let (limits, steps) = asked.split_once(": ").ok_or("steps")?;
    let limits = limits_of(limits).ok_or("limits")?;
    let mut script = Refining::new(alloc, program, limits)?;
    for step in steps.split(", ") {
        script.step(step)?;
    }
    Ok((script.text, wanted))
}

#[test]
fn composites_become_these_pieces(rt: HostRuntime) -> Result<(), Fail> {
    let alloc = rt.alloc();
    let mut number = 0usize;
    for table in &rows::TABLES {
        for script in table.split("\u{a7}\n") {
            if let Some((source, rows)) = script.split_once("--- ") {
                let program = program_of(alloc, source).ok_or("a program")?;
                for row in rows.split("--- ") {
                    let (title, row) = row.split_once('\n').ok_or("a title")?;
                    let (text, wanted) = last_piece(alloc, &program, row)?;
                    assert_eq!(rt; text.as_str(), wanted, "{number} {title}");
                    number = number.saturating_add(1);
                }
            }
        }
    }
    assert_eq!(rt; number, rows::COUNT);
    Ok(())
}
