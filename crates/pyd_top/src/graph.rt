//! Mode `graph`.
ghost use Rattle.std.specs.Prelude.{◌≡◌, ◌≤◌, OnOk, OnErr, IsErrOf};
ghost use Rattle.pyd_source.specs.Content.{Added, AddedPrefix};
ghost use Rattle.pyd_source.specs.Faults.{Counted};
ghost use Rattle.pyd_graph.specs.ScriptGraph as spec;
ghost use Rattle.pyd_top.specs.declared.lines.Halt.TheVariants.{SinkFault};
ghost use Rattle.pyd_top.specs.declared.mode.Mode.TheVariants.{Graph};
ghost use Rattle.pyd_top.specs.Accepts.{Fits, Accepted};
ghost use Rattle.pyd_top.specs.Conclusion.{ConcludesRead};
ghost use Rattle.pyd_top.specs.Streams.{stream};

use crate::accepting::check_source;
use crate::conclusion::{Conclusion, stopped_by};
use crate::lines::Halt;
use pyd_graph::graph_text;
use pyd_scope::Program;
use pyd_source::{Sink, put_all};
use std::alloc::Global;

/// Puts the graph of a source that was read to its end.
pub(crate) fn graph<K: Sink>(alloc: Global, bytes: &[u8], out: &mut K) -> Conclusion
    requires { Fits bytes.now }
    ensures concludes { ConcludesRead Graph bytes.now
        (stream (K.held out.old) (K.held out.new) (K.faults out.old) (K.faults out.new)) result }
    ensures count { K.faults out.old ≤ K.faults out.new }
{
    match check_source(alloc, bytes) {
        Ok(program) => draw(alloc, bytes, &program, out),
        Err(stop) => stopped_by(stop),
    }
}

/// Puts the graph of the program of a source.
fn draw<K: Sink>(alloc: Global, bytes: &[u8], program: &Program, out: &mut K) -> Conclusion
    requires fits { Fits bytes.now }
    requires accepted { Accepted bytes.now program.now }
    ensures concludes { ConcludesRead Graph bytes.now
        (stream (K.held out.old) (K.held out.new) (K.faults out.old) (K.faults out.new)) result }
    ensures count { K.faults out.old ≤ K.faults out.new }
{
    let _length = bytes.len();
    match put_graph(alloc, program, out) {
        Ok(()) => Conclusion::Done,
        Err(Halt::SinkFault) => Conclusion::SinkFault,
        Err(Halt::NoMemory) => Conclusion::NoMemory,
    }
}

/// Puts the graph of a program.
fn put_graph<K: Sink>(alloc: Global, program: &Program, out: &mut K) -> Result<(), Halt>
    ensures ok { OnOk result
        (Added (K.held out.old) (spec.graph_text program.now.file) (K.held out.new)) }
    ensures err { OnErr result
        (AddedPrefix (K.held out.old) (spec.graph_text program.now.file) (K.held out.new)) }
    ensures cause { Counted (K.faults out.old) (K.faults out.new)
        (IsErrOf result Halt.SinkFault) }
{
    let text = graph_text(alloc, program)?;
    put_all(out, &text)?;
    Ok(())
}
