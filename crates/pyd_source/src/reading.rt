//! All the bytes of a source.
ghost use Rattle.std.specs.Prelude.{◌≡◌, ◌+◌, ◌<◌, ◌≤◌, length, take, vec_len, IfOk, OnOk, IsErrOf};
ghost use Rattle.pyd_source.specs.Content.{Taken, TookExactly, TookAtMost, AtEnd, Emptied};
ghost use Rattle.pyd_source.specs.Faults.{Counted};
ghost use Rattle.pyd_source.specs.declared.reading.ReadStop.TheVariants.{NoMemory};

use crate::Source;
use std::alloc::{AllocError, Global};
use std::error::Error;
use std::{cmp, fmt};

/// The most bytes that one call takes.
const CHUNK: usize = 65536;

/// Why not all was read.
#[derive(Clone, Copy, Debug, PartialEq, Eq)]
pub enum ReadStop {
    /// There are more bytes than the limit.
    TooLong,
    /// The source failed.
    ReadFault,
    NoMemory,
}

impl fmt::Display for ReadStop {
    fn fmt<W: fmt::Write>(&self, f: &mut fmt::Formatter<W>) -> fmt::Result {
        f.write_str(match self {
            ReadStop::TooLong => "more bytes than the limit",
            ReadStop::ReadFault => "the source failed",
            ReadStop::NoMemory => "memory ran out",
        })
    }
}

impl Error for ReadStop {}

impl From<AllocError> for ReadStop {
    ghost from_gives = { λ _ stop. stop ≡ NoMemory };

    fn from(_: AllocError) -> Self {
        ReadStop::NoMemory
    }
}

/// Reads a source to its end, which has to come within `limit` bytes.
pub fn read_all<S: Source>(alloc: Global, source: &mut S, limit: usize) -> Result<Vec<u8>, ReadStop>
    // All that was left is answered, and nothing is left.
    ensures within { IfOk result (λ bytes. vec_len bytes ≤ limit) }
    ensures ok { IfOk result (λ bytes. Taken (S.left source.old) bytes.items (S.left source.new)) }
    ensures end { OnOk result (Emptied (S.left source.old) (S.left source.new)) }

    // One byte more than the limit was taken, and else no more than the limit.
    ensures long { IsErrOf result ReadStop.TooLong →
        TookExactly (S.left source.old) (limit + 1) (S.left source.new) }
    ensures fault { IsErrOf result ReadStop.ReadFault →
        TookAtMost (S.left source.old) limit (S.left source.new) }
    ensures memory { IsErrOf result ReadStop.NoMemory →
        TookAtMost (S.left source.old) limit (S.left source.new) }

    ensures cause { Counted (S.faults source.old) (S.faults source.new)
        (IsErrOf result ReadStop.ReadFault) }
{
    let mut chunk = new_chunk(alloc)?;
    let mut bytes = Vec::new(alloc);
    loop {
        let count = take_next(source, &mut chunk, limit - bytes.len())?;
        if count == 0 {
            return Ok(bytes);
        }
        bytes.extend_from_slice(&chunk[..count])?;
    }
}

// A place for the bytes of one call.
fn new_chunk(alloc: Global) -> Result<Vec<u8>, AllocError>
    ensures { IfOk result (λ chunk. 0 < vec_len chunk) }
{
    vec![in alloc; 0; CHUNK]
}

// Takes the next bytes into the chunk, and answers how many: none at the end, and no more than `room`.
fn take_next<S: Source>(source: &mut S, chunk: &mut [u8], room: usize) -> Result<usize, ReadStop>
    requires { 0 < length chunk.old }
    ensures fits { IfOk result (λ count. count ≤ length chunk.new) }
    ensures within { IfOk result (λ count. count ≤ room) }
    ensures ok { IfOk result (λ count.
        Taken (S.left source.old) (take count chunk.new) (S.left source.new)) }
    ensures end { IfOk result (λ count. count ≡ 0 → AtEnd (S.left source.old)) }

    ensures long { IsErrOf result ReadStop.TooLong →
        TookExactly (S.left source.old) (room + 1) (S.left source.new) }
    ensures fault { IsErrOf result ReadStop.ReadFault → S.left source.new ≡ S.left source.old }
    ensures memory { IsErrOf result ReadStop.NoMemory → ⊥ }
    ensures cause { Counted (S.faults source.old) (S.faults source.new)
        (IsErrOf result ReadStop.ReadFault) }
{
    // One byte more than the room shows that there are too many.
    let window = cmp::min(room, chunk.len() - 1) + 1;
    match source.take(&mut chunk[..window]) {
        Ok(count) if count <= room => Ok(count),
        Ok(_) => Err(ReadStop::TooLong),
        Err(_) => Err(ReadStop::ReadFault),
    }
}
