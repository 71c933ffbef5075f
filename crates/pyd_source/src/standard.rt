//! The adapters to std's readers and writers. They tell nothing of content.
ghost use Rattle.std.specs.Prelude.{◌≡◌, ◌<◌, ◌≤◌, length, false, None, IfOk, IsErr, is_err};
ghost use Rattle.std.specs.Io.KnownBytes.{ReadConsumes, WriteAppends};
ghost use Rattle.pyd_source.specs.Faults.{Counted, count_after, raised};

use crate::{Failed, Sink, Source};
use std::io::{Read, Write};

/// A reader as a source. Each error is a fault.
#[derive(Drop)]
pub struct StdSource<R> {
    inner: R,
    faults: u64,
}

impl<R: Read> StdSource<R> {
    /// A source over this reader that hasn't failed yet.
    pub fn new(inner: R) -> StdSource<R>
        ensures inner { result.inner ≡ inner }
        ensures faults { ⟦<StdSource<R> as Source>⟧.faults result ≡ 0 }
    {
        StdSource { inner, faults: 0 }
    }
}

impl<R: Read> Source for StdSource<R> {
    ghost left = { λ _. None };

    ghost faults = { λ source. source.faults };

    fn take(&mut self, buf: &mut [u8]) -> Result<usize, Failed>
        ensures within { IfOk result (λ count. count ≤ length buf.new) }

        // What std says of a read, of the reader within.
        ensures bytes { ReadConsumes (R.remaining self.old.inner) (R.remaining self.new.inner)
            result buf.new }
        ensures faults { self.new.faults ≡ count_after (is_err result) self.old.faults }
        ensures cause { Counted self.old.faults self.new.faults (IsErr result) }
    {
        match self.inner.read(buf) {
            Ok(count) => Ok(count),
            Err(_) => fail(&mut self.faults),
        }
    }
}

/// A writer as a sink. Each error is a fault, and so is taking nothing of a piece that isn't empty.
#[derive(Drop)]
pub struct StdSink<W> {
    inner: W,
    faults: u64,
}

impl<W: Write> StdSink<W> {
    /// A sink over this writer that hasn't failed yet.
    pub fn new(inner: W) -> StdSink<W>
        ensures inner { result.inner ≡ inner }
        ensures faults { ⟦<StdSink<W> as Sink>⟧.faults result ≡ 0 }
    {
        StdSink { inner, faults: 0 }
    }
}

impl<W: Write> Sink for StdSink<W> {
    ghost held = { λ _. None };

    ghost room = { λ _. None };

    ghost sure = { λ _. false };

    ghost faults = { λ sink. sink.faults };

    fn put(&mut self, piece: &[u8]) -> Result<usize, Failed>
        ensures within { IfOk result (λ count. count ≤ length piece.now) }
        ensures some { IfOk result (λ count. 0 < length piece.now → 0 < count) }

        // What std says of a write, of the writer within.
        ensures bytes { WriteAppends (W.contents self.old.inner) (W.contents self.new.inner)
            result piece.now }
        ensures faults { self.new.faults ≡ count_after (is_err result) self.old.faults }
        ensures cause { Counted self.old.faults self.new.faults (IsErr result) }
    {
        match self.inner.write(piece) {
            Ok(count) if count > 0 || piece.is_empty() => Ok(count),
            _ => fail(&mut self.faults),
        }
    }
}

// Counts a fault, and answers it.
fn fail(faults: &mut u64) -> Result<usize, Failed>
    ensures failed { IsErr result }
    ensures faults { faults.new ≡ raised faults.old }
    ensures cause { Counted faults.old faults.new (IsErr result) }
{
    *faults = faults.saturating_add(1);
    Err(Failed)
}
