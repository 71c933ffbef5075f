//! A sink that drops what it takes.
ghost use Rattle.std.specs.Prelude.{◌≡◌, length, true, None, Ok};

use crate::{Failed, Sink};

/// Takes every piece whole, tells no content, and is sure.
#[derive(Clone, Copy, Debug, PartialEq, Eq)]
pub struct NullSink;

impl NullSink {
    pub fn new() -> NullSink {
        NullSink
    }
}

impl Sink for NullSink {
    ghost held = { λ _. None };

    ghost room = { λ _. None };

    ghost sure = { λ _. true };

    ghost faults = { λ _. 0 };

    fn put(&mut self, piece: &[u8]) -> Result<usize, Failed>
        ensures whole { result ≡ Ok (length piece.now) }
    {
        Ok(piece.len())
    }
}
