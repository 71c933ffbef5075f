//! Puts the lines that a script prints.
ghost use Rattle.std.specs.Prelude.{◌≡◌, ◌++◌, [], OnOk, OnErr, IsErrOf};
ghost use Rattle.pyd_source.specs.Content.{Added, AddedPrefix};
ghost use Rattle.pyd_source.specs.Faults.{Counted};
ghost use Rattle.pyd_meaning.specs.Module.{bytes_of};
ghost use Rattle.pyd_top.specs.declared.lines.Halt.TheVariants.{NoMemory, SinkFault};
ghost use Rattle.pyd_top.specs.Lines.{line_bytes, Gathers};

use pyd_source::{Short, Sink, put_all};
use pyd_value::{NoMemory, Text};
use std::alloc::{AllocError, AllocFailed, Global};

/// How many bytes wait before they are put out together.
const GATHERED: usize = 65536;

/// Why a text wasn't put to its end.
#[derive(Clone, Copy, Debug, PartialEq, Eq)]
pub(crate) enum Halt {
    /// The sink failed.
    SinkFault,
    NoMemory,
}

impl From<AllocError> for Halt {
    ghost from_gives = { λ _ halt. halt ≡ NoMemory };

    fn from(_: AllocError) -> Self {
        Halt::NoMemory
    }
}

impl<T: Drop> From<AllocFailed<T>> for Halt {
    ghost from_gives = { λ _ halt. halt ≡ NoMemory };

    fn from(_: AllocFailed<T>) -> Self {
        Halt::NoMemory
    }
}

impl From<NoMemory> for Halt {
    ghost from_gives = { λ _ halt. halt ≡ NoMemory };

    fn from(_: NoMemory) -> Self {
        Halt::NoMemory
    }
}

impl From<Short> for Halt {
    ghost from_gives = { λ _ halt. halt ≡ SinkFault };

    fn from(_: Short) -> Self {
        Halt::SinkFault
    }
}

/// Puts lines, each with a newline.
pub(crate) fn put_lines<K: Sink>(alloc: Global, lines: &[Text], out: &mut K) -> Result<(), Halt>
    ensures ok { OnOk result (Added (K.held out.old) (bytes_of lines.now) (K.held out.new)) }
    ensures err { OnErr result
        (AddedPrefix (K.held out.old) (bytes_of lines.now) (K.held out.new)) }
    ensures cause { Counted (K.faults out.old) (K.faults out.new)
        (IsErrOf result Halt.SinkFault) }
{
    let mut waiting = Vec::new(alloc);
    gather(lines, out, &mut waiting)?;
    put_all(out, &waiting)?;
    Ok(())
}

/// Puts lines. What waits at the end is still to be put.
fn gather<K: Sink>(lines: &[Text], out: &mut K, waiting: &mut Vec<u8>) -> Result<(), Halt>
    requires { waiting.old.items ≡ [] }
    ensures ok { OnOk result (Gathers (K.held out.old) (K.held out.new)
        waiting.new.items (bytes_of lines.now)) }
    ensures err { OnErr result
        (AddedPrefix (K.held out.old) (bytes_of lines.now) (K.held out.new)) }
    ensures cause { Counted (K.faults out.old) (K.faults out.new)
        (IsErrOf result Halt.SinkFault) }
{
    for line in lines {
        add_line(line, out, waiting)?;
    }
    Ok(())
}

/// Adds a line to what waits, and puts it all where that has become much.
fn add_line<K: Sink>(line: &Text, out: &mut K, waiting: &mut Vec<u8>) -> Result<(), Halt>
    ensures ok { OnOk result (Gathers (K.held out.old) (K.held out.new)
        waiting.new.items (waiting.old.items ++ line_bytes line.now)) }
    ensures err { OnErr result (AddedPrefix (K.held out.old)
        (waiting.old.items ++ line_bytes line.now) (K.held out.new)) }
    ensures cause { Counted (K.faults out.old) (K.faults out.new)
        (IsErrOf result Halt.SinkFault) }
{
    append_line(line, waiting)?;
    if waiting.len() >= GATHERED {
        put_all(out, waiting)?;
        waiting.clear();
    }
    Ok(())
}

fn append_line(line: &Text, waiting: &mut Vec<u8>) -> Result<(), AllocError>
    ensures { OnOk result (waiting.new.items ≡ waiting.old.items ++ line_bytes line.now) }
{
    waiting.extend_from_slice(line.as_str().as_bytes())?;
    waiting.push(b'\n')?;
    Ok(())
}
