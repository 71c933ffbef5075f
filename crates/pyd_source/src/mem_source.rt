//! A source in memory, which fails where it is told to.
ghost use Rattle.std.specs.Prelude.{◌≡◌, ◌↔◌, ◌-◌, ◌^◌, ◌<◌, ◌≤◌, Contains, IsErr, IfOk, OnErr, is_err, length, min, take, drop, Some, [], ◌++◌};
ghost use Rattle.pyd_source.specs.Faults.{Counted};
ghost use Rattle.pyd_source.specs.FailurePlan.{begun, called};

use crate::failure_plan::FailurePlan;
use crate::{Failed, Source};
use std::cmp;
use std::marker::Model;

/// Bytes that are taken a few at a time, by calls some of which fail.
#[derive(Debug, Drop)]
pub struct MemSource {
    bytes: Vec<u8>,
    at: usize,
    plan: FailurePlan,
}

impl Model for MemSource {
    ghost use Rattle.std.specs.Prelude.{◌<◌, ◌≤◌, drop, vec_len};
    ghost use Rattle.pyd_source.specs.FailurePlan.{Supply, supply_code};

    ghost Value = { Supply };

    ghost coded = { supply_code };

    ghost view = { λ s. record { left = drop s.at s.bytes.items; plan = s.plan } };

    ghost invariant = { λ s. (s.at ≤ vec_len s.bytes) × (0 < s.plan.step) };
}

impl MemSource {
    /// A source of these bytes, at most `step` in a call. The calls whose numbers are in `fails` fail.
    /// They count from 0, and the number stays at 2^64 - 1 once it is there.
    pub fn new(bytes: Vec<u8>, fails: Vec<u64>, step: usize) -> MemSource
        requires moves { 1 ≤ step }
        requires numbered { ¬ Contains fails.items (2 ^ 64 - 1) }
        ensures { result ≡ record { left = bytes.items; plan = begun fails.items step } }
    {
        MemSource {
            bytes,
            at: 0,
            plan: FailurePlan::new(fails, step),
        }
    }
}

impl Source for MemSource {
    ghost left = { λ source. Some source.left };

    ghost faults = { λ source. source.plan.faults };

    fn take(&mut self, buf: &mut [u8]) -> Result<usize, Failed>
        ensures within { IfOk result (λ count. count ≤ length buf.new) }
        ensures ok { IfOk result (λ count. self.old.left ≡ take count buf.new ++ self.new.left) }
        ensures end { IfOk result (λ count.
            count ≡ 0 → 0 < length buf.new → self.old.left ≡ []) }
        ensures kept { OnErr result (self.new.left ≡ self.old.left) }
        ensures cause { Counted self.old.plan.faults self.new.plan.faults (IsErr result) }

        // It fails exactly by its plan, and moves as many bytes as that, the buffer and the rest allow.
        ensures failed { IsErr result ↔ Contains self.old.plan.fails self.old.plan.number }
        ensures count { IfOk result (λ count.
            count ≡ min (min self.old.plan.step (length buf.old)) (length self.old.left)) }
        ensures plan { self.new.plan ≡ called (is_err result) self.old.plan }
    {
        let failed = self.plan.fails_next();
        self.plan.count(failed);
        if failed {
            return Err(Failed);
        }
        let count = copy_front(&self.bytes[self.at..], buf, self.plan.step());
        self.at += count;
        Ok(count)
    }
}

// Copies the front of a slice to the front of another, and answers how many bytes.
fn copy_front(from: &[u8], to: &mut [u8], most: usize) -> usize
    ensures count { result ≡ min (min most (length to.old)) (length from.now) }
    ensures copied { take result to.new ≡ take result from.now }
{
    let count = cmp::min(cmp::min(most, to.len()), from.len());
    to[..count].copy_from_slice(&from[..count]);
    count
}
