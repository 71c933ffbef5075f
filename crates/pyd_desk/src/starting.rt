//! Nodes and a desk before any event.
ghost use Rattle.std.specs.Prelude.{◌≡◌, IfOk, None, map, replicate};
ghost use Rattle.std.specs.FinMap as empty_map;
ghost use Rattle.pyd_translate.specs.Scripts.{script_piece};
ghost use Rattle.pyd_desk.specs.Starting as spec;

use crate::adding::{add, add_copies};
use crate::desk::{Desk, Mark};
use crate::line::Line;
use crate::works::port_kind;
use pyd_ir::Node;
use pyd_meaning::Ran;
use pyd_scope::Program;
use pyd_store::Store;
use pyd_translate::unfold_script;
use pyd_value::{Boxed, NoMemory};
use std::alloc::Global;

impl Line {
    /// The nodes of a script in program order, none of which is settled. An error is want of
    /// memory.
    pub fn start(alloc: Global, program: &Program) -> Result<Line, NoMemory>
        ensures nodes { IfOk result (λ line. line.nodes.items
            ≡ (script_piece program.now.file).nodes) }
        ensures settled { IfOk result (λ line. line.settled ≡ 0) }
    {
        let piece = unfold_script(alloc, program)?;
        let mut nodes = Vec::new(alloc);
        add_copies(alloc, &mut nodes, piece.nodes.as_slice())?;
        Ok(Line { nodes, settled: 0 })
    }
}

impl Desk {
    /// A desk on which nothing stands, with a place for each of these nodes and each of so many
    /// machines, all of which live. An error is want of memory.
    pub fn start(alloc: Global, nodes: &[Node], machines: usize) -> Result<Desk, NoMemory>
        ensures { IfOk result (λ desk. spec.IsFirst nodes.now machines desk) }
    {
        let marks = first_marks(alloc, nodes)?;
        let driver = no_records(alloc, nodes.len())?;
        let stores = empty_stores(alloc, machines)?;
        let alive = Vec::from_elem(alloc, true, machines)?;
        Ok(Desk {
            marks,
            driver,
            stores,
            alive,
            undone: Vec::new(alloc),
        })
    }
}

/// The marks of nodes before any event.
fn first_marks(alloc: Global, nodes: &[Node]) -> Result<Vec<Mark>, NoMemory>
    ensures { IfOk result (λ marks. marks.items ≡ map spec.first_mark nodes.now) }
{
    let mut marks = Vec::new(alloc);
    for node in nodes {
        add(&mut marks, first_mark(node))?;
    }
    Ok(marks)
}

/// The mark of a node before any event.
fn first_mark(node: &Node) -> Mark
    ensures { result ≡ spec.first_mark node.now }
{
    Mark {
        places: 0,
        ticket: None,
        machine: None,
        claim: None,
        ports: port_kind(&node.work),
    }
}

/// Places for so many records of the driver, none of which is there.
fn no_records(alloc: Global, count: usize) -> Result<Vec<Option<Boxed<Ran>>>, NoMemory>
    ensures { IfOk result (λ records. records.items ≡ replicate count None) }
{
    let mut records = Vec::new(alloc);
    while records.len() < count {
        add(&mut records, None)?;
    }
    Ok(records)
}

/// So many stores without entries.
fn empty_stores(alloc: Global, count: usize) -> Result<Vec<Store>, NoMemory>
    ensures { IfOk result (λ stores. stores.items ≡ replicate count empty_map.empty) }
{
    let mut stores = Vec::new(alloc);
    while stores.len() < count {
        add(&mut stores, Store::new(alloc))?;
    }
    Ok(stores)
}
