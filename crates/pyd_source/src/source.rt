//! Where bytes come from.
ghost use Rattle.std.specs.Prelude.{◌≡◌, ◌<◌, ◌≤◌, ℕ, List, Option, length, take, IsErr, IfOk, OnErr};
ghost use Rattle.pyd_source.specs.Content.{Taken, AtEnd};
ghost use Rattle.pyd_source.specs.Faults.{Counted};

use crate::Failed;

/// A source of bytes, which are taken a few at a time.
pub trait Source {
    /// The bytes that are still to be taken, where the source tells them.
    ghost left: { Self → Option (List ℕ) };

    /// How often a call has failed.
    ghost faults: { Self → ℕ };

    /// Puts the next bytes at the front of `buf`, and answers how many. None into a buffer that has
    /// room means the end. What `buf` has behind them, or after a fault, isn't said.
    fn take(&mut self, buf: &mut [u8]) -> Result<usize, Failed>
        ensures within { IfOk result (λ count. count ≤ length buf.new) }
        ensures ok { IfOk result (λ count.
            Taken (left self.old) (take count buf.new) (left self.new)) }
        ensures end { IfOk result (λ count.
            count ≡ 0 → 0 < length buf.new → AtEnd (left self.old)) }
        ensures kept { OnErr result (left self.new ≡ left self.old) }
        ensures cause { Counted (faults self.old) (faults self.new) (IsErr result) };
}
