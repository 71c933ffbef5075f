//! The top call: from words and a source to output, an error line and a status.
ghost use Rattle.std.specs.Prelude.{◌≤◌, ℕ, List};
ghost use Rattle.pyd_top.specs.Conclusion.{Concludes, ConcludesRead, IsRunOf, Reports};
ghost use Rattle.pyd_top.specs.Correct.{KeepsPromises};
ghost use Rattle.pyd_top.specs.Accepts.{Fits};
ghost use Rattle.pyd_top.specs.Streams.{stream, IsInput};

use crate::accepting::LONGEST;
use crate::check::check;
use crate::conclusion::Conclusion;
use crate::graph::graph;
use crate::laws::one_work;
use crate::mode::Mode;
use crate::report::put_error;
use crate::run::run;
use crate::status::{Ended, Status};
use pyd_source::{ReadStop, Sink, Source, read_all};
use std::alloc::Global;

/// Does the whole work on one thread, and waits for nobody.
pub fn pydron_here<S: Source, K: Sink, E: Sink>(
    alloc: Global,
    words: &[String],
    source: &mut S,
    out: K,
    err: &mut E,
    _choices: &[u32],
) -> Ended<K>
    // An input and a conclusion explain what was taken, put and answered (specs/Conclusion.antt).
    ensures run { IsRunOf words.now result.status
        (stream (S.left source.old) (S.left source.new) (S.faults source.old) (S.faults source.new))
        (stream (K.held out) (K.held result.out) (K.faults out) (K.faults result.out))
        (stream (E.held err.old) (E.held err.new) (E.faults err.old) (E.faults err.new)) }

    // What that promises at each status, and when a status surely comes (specs/Correct.antt).
    ensures promises { KeepsPromises words.now result.status
        (stream (S.left source.old) (S.left source.new) (S.faults source.old) (S.faults source.new))
        (stream (K.held out) (K.held result.out) (K.faults out) (K.faults result.out))
        (stream (E.held err.old) (E.held err.new) (E.faults err.old) (E.faults err.new)) }
{
    // That a mode makes one thing of an input is what makes the promises exact.
    one_work();
    let mut out = out;
    let conclusion = conclude(alloc, words, source, &mut out);
    Ended {
        status: end_with(err, conclusion),
        out,
    }
}

/// Ends a call: puts the error line of its conclusion, and answers the status.
pub fn end_with<E: Sink>(err: &mut E, conclusion: Conclusion) -> Status
    ensures reports { Reports conclusion result
        (stream (E.held err.old) (E.held err.new) (E.faults err.old) (E.faults err.new)) }
    ensures count { E.faults err.old ≤ E.faults err.new }
{
    match put_error(err, conclusion) {
        Ok(()) => conclusion.status(),
        Err(_) => Status::SinkFault,
    }
}

/// Reads the words and the source, and does the mode's work.
fn conclude<S: Source, K: Sink>(
    alloc: Global,
    words: &[String],
    source: &mut S,
    out: &mut K,
) -> Conclusion
    ensures concludes { let source = stream (S.left source.old) (S.left source.new)
        (S.faults source.old) (S.faults source.new) in
        (input : List ℕ) × IsInput source input × Concludes words.now input source
        (stream (K.held out.old) (K.held out.new) (K.faults out.old) (K.faults out.new)) result }
    ensures source_count { S.faults source.old ≤ S.faults source.new }
    ensures out_count { K.faults out.old ≤ K.faults out.new }
{
    let Some(mode) = Mode::of(words) else {
        return Conclusion::Words;
    };
    match read_all(alloc, source, LONGEST) {
        Ok(bytes) => serve(alloc, mode, &bytes, out),
        Err(ReadStop::TooLong) => Conclusion::TooLong,
        Err(ReadStop::ReadFault) => Conclusion::ReadFault,
        Err(ReadStop::NoMemory) => Conclusion::NoMemory,
    }
}

/// Does a mode's work on a source that was read to its end.
fn serve<K: Sink>(alloc: Global, mode: Mode, bytes: &[u8], out: &mut K) -> Conclusion
    requires { Fits bytes.now }
    ensures concludes { ConcludesRead mode bytes.now
        (stream (K.held out.old) (K.held out.new) (K.faults out.old) (K.faults out.new)) result }
    ensures count { K.faults out.old ≤ K.faults out.new }
{
    match mode {
        Mode::Run => run(alloc, bytes, out),
        Mode::Check => check(alloc, bytes, out),
        Mode::Graph => graph(alloc, bytes, out),
    }
}
