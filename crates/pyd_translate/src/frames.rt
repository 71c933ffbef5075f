//! Copies of frames.
ghost use Rattle.std.specs.Prelude.{◌≡◌, ◌∷◌, ◌++◌, IfOk, OnOk};

use pyd_ir::{Frame, Rest};
use pyd_value::{List, NoMemory};
use std::alloc::Global;

/// A copy of a frame.
pub fn copy_frame(alloc: Global, frame: &Frame) -> Result<Frame, NoMemory>
    ensures { IfOk result (λ copy. copy ≡ frame.now) }
{
    match frame {
        Frame::After(stmt) => Ok(Frame::After(*stmt)),
        Frame::Again { stmt, turns, over } => Ok(Frame::Again {
            stmt: *stmt,
            turns: *turns,
            over: over.try_copy(alloc)?,
        }),
    }
}

/// Puts copies of frames at the end.
pub fn add_frames(alloc: Global, rest: &mut Rest, frames: &[Frame]) -> Result<(), NoMemory>
    ensures { OnOk result (rest.new ≡ rest.old ++ frames.now) }
{
    for frame in frames {
        rest.add(copy_frame(alloc, frame)?)?;
    }
    Ok(())
}

/// A frame, and then copies of others.
pub fn framed(alloc: Global, frame: Frame, frames: &[Frame]) -> Result<Rest, NoMemory>
    ensures { IfOk result (λ rest. rest ≡ frame ∷ frames.now) }
{
    let mut rest = List::new(alloc);
    rest.add(frame)?;
    add_frames(alloc, &mut rest, frames)?;
    Ok(rest)
}

/// Copies of frames.
pub fn frames_of(alloc: Global, frames: &[Frame]) -> Result<Rest, NoMemory>
    ensures { IfOk result (λ rest. rest ≡ frames.now) }
{
    let mut rest = List::new(alloc);
    add_frames(alloc, &mut rest, frames)?;
    Ok(rest)
}
