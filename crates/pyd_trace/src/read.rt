//! Reads the text of a trace back (docs/FORMATS.md, "Traces").
ghost use Rattle.std.specs.Prelude.{◌≡◌, ◌+◌, ◌<◌, ◌^◌, length, IfOk, IfErr, IfSome, IsNone};
ghost use Rattle.pyd_trace.specs.declared.read.TraceStop.TheVariants.{NoMemory as OutOfMemory};
ghost use Rattle.pyd_trace.specs.Reading.{IsTrace, OtherLine, Stops};
ghost use Rattle.pyd_trace.specs.Guessing.{AreLines, StopsLines, CutsLine};

use crate::guess::guess_event;
use crate::write::{HEADER, push_line};
use pyd_board::Event;
use pyd_value::NoMemory;
use std::alloc::{AllocFailed, Global};

/// Why bytes are no trace.
#[derive(Clone, Copy, Debug, PartialEq, Eq)]
pub enum TraceStop {
    /// The first line isn't the header.
    BadVersion,
    /// This line, counted from 1, is the first that is no event's.
    BadLine(u32),
    NoMemory,
}

impl From<NoMemory> for TraceStop {
    ghost from_gives = { λ _ stop. stop ≡ OutOfMemory };

    fn from(_: NoMemory) -> Self {
        TraceStop::NoMemory
    }
}

impl<T: Drop> From<AllocFailed<T>> for TraceStop {
    ghost from_gives = { λ _ stop. stop ≡ OutOfMemory };

    fn from(_: AllocFailed<T>) -> Self {
        TraceStop::NoMemory
    }
}

/// The events whose text the bytes are.
pub fn read_trace(alloc: Global, bytes: &[u8]) -> Result<Vec<Event>, TraceStop>
    requires { length bytes.now < 2 ^ 32 }
    ensures ok { IfOk result (λ events. IsTrace bytes.now events.items) }
    ensures err { IfErr result (Stops bytes.now) }
{
    match bytes.strip_prefix(HEADER) {
        Some(lines) => read_lines(alloc, lines),
        None => Err(TraceStop::BadVersion),
    }
}

/// The events of the lines behind the header.
fn read_lines(alloc: Global, lines: &[u8]) -> Result<Vec<Event>, TraceStop>
    requires { length lines.now + 15 < 2 ^ 32 }
    ensures ok { IfOk result (λ events. AreLines lines.now events.items) }
    ensures err { IfErr result (StopsLines lines.now) }
{
    let mut events = Vec::new(alloc);
    let mut line = Vec::new(alloc);
    let mut rest = lines;
    let mut number = 2;
    while !rest.is_empty() {
        let Some((event, more)) = cut_line(rest, &mut line)? else {
            return Err(TraceStop::BadLine(number));
        };
        events.push(event)?;
        rest = more;
        number += 1;
    }
    Ok(events)
}

/// The event whose line stands in front, and what stands behind it; `line` is room to write in.
fn cut_line<'a>(bytes: &'a [u8], line: &mut Vec<u8>) -> Result<Option<(Event, &'a [u8])>, NoMemory>
    ensures found { IfOk result (λ cut. IfSome cut (λ c. CutsLine bytes.now c.0 c.1.now)) }
    ensures none { IfOk result (λ cut. IsNone cut → OtherLine bytes.now) }
{
    let Some(event) = guess_event(bytes) else {
        return Ok(None);
    };
    line.clear();
    push_line(line, event)?;
    match bytes.strip_prefix(line.as_slice()) {
        Some(more) => Ok(Some((event, more))),
        None => Ok(None),
    }
}
