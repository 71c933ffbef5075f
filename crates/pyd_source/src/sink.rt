//! Where bytes go.
ghost use Rattle.std.specs.Prelude.{◌≡◌, ◌<◌, ◌≤◌, ℕ, Bool, List, Option, length, take, IsTrue, IsOk, IsErr, IfOk, OnErr};
ghost use Rattle.pyd_source.specs.Content.{Added, Lowered, Exceeds};
ghost use Rattle.pyd_source.specs.Faults.{Counted};

use crate::Failed;

/// A sink for bytes, which are put a few at a time.
pub trait Sink {
    /// The bytes that it holds, where it tells them.
    ghost held: { Self → Option (List ℕ) };

    /// How many bytes more it surely takes, where it tells that.
    ghost room: { Self → Option ℕ };

    /// Whether it never fails.
    ghost sure: { Self → Bool };

    /// How often a call has failed.
    ghost faults: { Self → ℕ };

    /// Takes bytes from the front of `piece`, one at least where there is one, and answers how many.
    fn put(&mut self, piece: &[u8]) -> Result<usize, Failed>
        ensures within { IfOk result (λ count. count ≤ length piece.now) }
        ensures some { IfOk result (λ count. 0 < length piece.now → 0 < count) }
        ensures ok { IfOk result (λ count.
            Added (held self.old) (take count piece.now) (held self.new)) }
        ensures lowered { IfOk result (λ count.
            Lowered (room self.old) count (room self.new)) }

        // A fault leaves what is held. It never comes where the room is told and enough.
        ensures kept { OnErr result (held self.new ≡ held self.old) }
        ensures full { OnErr result (Exceeds (length piece.now) (room self.old)) }
        ensures cause { Counted (faults self.old) (faults self.new) (IsErr result) }

        // A sure sink never fails, and stays sure.
        ensures succeeds { IsTrue (sure self.old) → IsOk result }
        ensures same { sure self.new ≡ sure self.old };
}
