//! Mode `run`.
ghost use Rattle.std.specs.Prelude.{◌≡◌, ◌≤◌};
ghost use Rattle.pyd_top.specs.declared.mode.Mode.TheVariants.{Run};
ghost use Rattle.pyd_top.specs.Accepts.{Fits, Accepted};
ghost use Rattle.pyd_top.specs.Conclusion.{ConcludesRead};
ghost use Rattle.pyd_top.specs.Running.{IsEvaluated};
ghost use Rattle.pyd_top.specs.Streams.{stream};

use crate::accepting::check_source;
use crate::conclusion::{Conclusion, named_end, stopped_by};
use crate::lines::{Halt, put_lines};
use pyd_eval::module;
use pyd_meaning::Limits;
use pyd_scope::Program;
use pyd_source::Sink;
use std::alloc::Global;

/// Runs a source that was read to its end.
pub(crate) fn run<K: Sink>(alloc: Global, bytes: &[u8], out: &mut K) -> Conclusion
    requires { Fits bytes.now }
    ensures concludes { ConcludesRead Run bytes.now
        (stream (K.held out.old) (K.held out.new) (K.faults out.old) (K.faults out.new)) result }
    ensures count { K.faults out.old ≤ K.faults out.new }
{
    match check_source(alloc, bytes) {
        Ok(program) => run_program(alloc, bytes, &program, out),
        Err(stop) => stopped_by(stop),
    }
}

/// Runs the program of a source.
fn run_program<K: Sink>(alloc: Global, bytes: &[u8], program: &Program, out: &mut K) -> Conclusion
    requires fits { Fits bytes.now }
    requires accepted { Accepted bytes.now program.now }
    ensures concludes { ConcludesRead Run bytes.now
        (stream (K.held out.old) (K.held out.new) (K.faults out.old) (K.faults out.new)) result }
    ensures count { K.faults out.old ≤ K.faults out.new }
{
    let _length = bytes.len();
    evaluate(alloc, program, out)
}

/// Evaluates a program under the default limits, and puts what it prints.
fn evaluate<K: Sink>(alloc: Global, program: &Program, out: &mut K) -> Conclusion
    ensures evaluated { IsEvaluated program.now.file
        (stream (K.held out.old) (K.held out.new) (K.faults out.old) (K.faults out.new)) result }
    ensures count { K.faults out.old ≤ K.faults out.new }
{
    let whole = match module(alloc, program, Limits::usual()) {
        Ok(whole) => whole,
        Err(_) => return Conclusion::NoMemory,
    };
    match put_lines(alloc, whole.lines.as_slice(), out) {
        Ok(()) => named_end(whole.end),
        Err(Halt::SinkFault) => Conclusion::SinkFault,
        Err(Halt::NoMemory) => Conclusion::NoMemory,
    }
}
