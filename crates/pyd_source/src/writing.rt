//! All of some bytes into a sink.
ghost use Rattle.std.specs.Prelude.{◌≡◌, ◌<◌, length, take, IsTrue, IsOk, IsErr, IfErr, OnOk, OnErr};
ghost use Rattle.pyd_source.specs.Content.{Added, AddedPrefix, Lowered, Exceeds};
ghost use Rattle.pyd_source.specs.Faults.{Counted};

use crate::Sink;
use std::error::Error;
use std::fmt;

/// The sink failed before all bytes had gone out.
#[derive(Clone, Copy, Debug, PartialEq, Eq)]
pub struct Short {
    /// How many bytes went out, from the first on.
    pub gone: usize,
}

impl fmt::Display for Short {
    fn fmt<W: fmt::Write>(&self, f: &mut fmt::Formatter<W>) -> fmt::Result {
        write!(f, "the sink failed after {} bytes", self.gone)
    }
}

impl Error for Short {}

/// Puts all these bytes into a sink, in order. Takes no memory.
pub fn put_all<K: Sink>(sink: &mut K, bytes: &[u8]) -> Result<(), Short>
    ensures ok { OnOk result (Added (K.held sink.old) bytes.now (K.held sink.new)) }
    ensures lowered { OnOk result (Lowered (K.room sink.old) (length bytes.now) (K.room sink.new)) }

    // Exactly the first `gone` bytes went out, and not all.
    // It never comes where the room is told and enough.
    ensures within { IfErr result (λ short. short.gone < length bytes.now) }
    ensures gone { IfErr result (λ short.
        Added (K.held sink.old) (take short.gone bytes.now) (K.held sink.new)) }
    ensures err { OnErr result (AddedPrefix (K.held sink.old) bytes.now (K.held sink.new)) }
    ensures full { OnErr result (Exceeds (length bytes.now) (K.room sink.old)) }
    ensures cause { Counted (K.faults sink.old) (K.faults sink.new) (IsErr result) }

    // It never comes from a sure sink.
    ensures succeeds { IsTrue (K.sure sink.old) → IsOk result }
    ensures same { K.sure sink.new ≡ K.sure sink.old }
{
    let mut gone = 0;
    while gone < bytes.len() {
        match sink.put(&bytes[gone..]) {
            Ok(count) => gone += count,
            Err(_) => return Err(Short { gone }),
        }
    }
    Ok(())
}
