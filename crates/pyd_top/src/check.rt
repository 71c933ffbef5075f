//! Mode `check`.
ghost use Rattle.std.specs.Prelude.{◌≡◌, ◌≤◌, ◌<◌, ◌-◌, length, decimal, codes, ◌++◌, OnOk, OnErr, IsErr};
ghost use Rattle.pyd_source.specs.Content.{Added, AddedPrefix};
ghost use Rattle.pyd_source.specs.Faults.{Counted};
ghost use Rattle.pyd_top.specs.declared.mode.Mode.TheVariants.{Check};
ghost use Rattle.pyd_top.specs.Accepts.{Fits, Accepted};
ghost use Rattle.pyd_top.specs.Checking.{summary};
ghost use Rattle.pyd_top.specs.Conclusion.{ConcludesRead};
ghost use Rattle.pyd_top.specs.Streams.{stream};

use crate::accepting::check_source;
use crate::conclusion::{Conclusion, stopped_by};
use itoa::Buffer;
use pyd_scope::Program;
use pyd_source::{Short, Sink, put_all};
use std::alloc::Global;

/// Checks a source that was read to its end.
pub(crate) fn check<K: Sink>(alloc: Global, bytes: &[u8], out: &mut K) -> Conclusion
    requires { Fits bytes.now }
    ensures concludes { ConcludesRead Check bytes.now
        (stream (K.held out.old) (K.held out.new) (K.faults out.old) (K.faults out.new)) result }
    ensures count { K.faults out.old ≤ K.faults out.new }
{
    match check_source(alloc, bytes) {
        Ok(program) => approve(bytes, &program, out),
        Err(stop) => stopped_by(stop),
    }
}

/// Puts the summary of the program of a source.
fn approve<K: Sink>(bytes: &[u8], program: &Program, out: &mut K) -> Conclusion
    requires fits { Fits bytes.now }
    requires accepted { Accepted bytes.now program.now }
    ensures concludes { ConcludesRead Check bytes.now
        (stream (K.held out.old) (K.held out.new) (K.faults out.old) (K.faults out.new)) result }
    ensures count { K.faults out.old ≤ K.faults out.new }
{
    let _length = bytes.len();
    match put_summary(program, out) {
        Ok(()) => Conclusion::Done,
        Err(_) => Conclusion::SinkFault,
    }
}

/// Puts how many functions and constants a program has.
fn put_summary<K: Sink>(program: &Program, out: &mut K) -> Result<(), Short>
    ensures ok { OnOk result (Added (K.held out.old) (summary program.now) (K.held out.new)) }
    ensures err { OnErr result
        (AddedPrefix (K.held out.old) (summary program.now) (K.held out.new)) }
    ensures cause { Counted (K.faults out.old) (K.faults out.new) (IsErr result) }
{
    put_all(out, b"ok: ")?;
    put_count(program.routines.len() - 1, b" functions, ", out)?;
    put_count(program.constants.len() - 1, b" constants\n", out)
}

/// Puts a number in decimal, and what it counts.
fn put_count<K: Sink>(count: usize, what: &[u8], out: &mut K) -> Result<(), Short>
    ensures ok { OnOk result
        (Added (K.held out.old) (decimal count ++ what.now) (K.held out.new)) }
    ensures err { OnErr result
        (AddedPrefix (K.held out.old) (decimal count ++ what.now) (K.held out.new)) }
    ensures cause { Counted (K.faults out.old) (K.faults out.new) (IsErr result) }
{
    let mut buffer = Buffer::new();
    put_all(out, buffer.format(count).as_bytes())?;
    put_all(out, what)
}
