//! Writes the graph of a script as text (docs/FORMATS.md, "Graphs").
ghost use Rattle.std.specs.Prelude.{◌≡◌, IfOk};
ghost use Rattle.pyd_graph.specs.ScriptGraph as spec;

use crate::write::nodes_text;
use pyd_scope::Program;
use pyd_translate::unfold_script;
use pyd_value::NoMemory;
use std::alloc::Global;

/// The text of the nodes that a script's own statements are, before any of them is refined: a line for
/// each, none for a script without statements.
pub fn graph_text(alloc: Global, program: &Program) -> Result<Vec<u8>, NoMemory>
    ensures { IfOk result (λ text. text.items ≡ spec.graph_text program.now.file) }
{
    let piece = unfold_script(alloc, program)?;
    nodes_text(alloc, program.routines.as_slice(), piece.nodes.as_slice())
}
