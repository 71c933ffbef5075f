//! A sink in memory, which fails where it is told to and where it is full.
ghost use Rattle.std.specs.Prelude.{◌≡◌, ◌↔◌, ◌⊎◌, ◌+◌, ◌-◌, ◌^◌, ◌<◌, ◌≤◌, Contains, IsTrue, IsOk, IsErr, IfOk, OnErr, is_err, length, min, take, Some, false, [], ◌++◌};
ghost use Rattle.pyd_source.specs.Faults.{Counted};
ghost use Rattle.pyd_source.specs.FailurePlan.{begun, called, told_room};

use crate::failure_plan::FailurePlan;
use crate::{Failed, Sink};
use pyd_value::NoMemory;
use std::alloc::Global;
use std::cmp;
use std::marker::Model;

/// Bytes that are put a few at a time, by calls some of which fail, into room that was reserved.
#[derive(Debug, Drop)]
pub struct MemSink {
    bytes: Vec<u8>,
    room: usize,
    plan: FailurePlan,
}

impl Model for MemSink {
    ghost use Rattle.std.specs.Prelude.{◌+◌, ◌<◌, ◌≤◌, vec_len, vec_capacity};
    ghost use Rattle.pyd_source.specs.FailurePlan.{Store, store_code};

    ghost Value = { Store };

    ghost coded = { store_code };

    ghost view = { λ s. record { held = s.bytes.items; room = s.room; plan = s.plan } };

    ghost invariant = { λ s.
        (vec_len s.bytes + s.room ≤ vec_capacity s.bytes) × (0 < s.plan.step) };
}

impl MemSink {
    /// A sink for `room` bytes, at most `step` in a call. The calls whose numbers are in `fails` fail.
    /// They count from 0, and the number stays at 2^64 - 1 once it is there.
    pub fn new(
        alloc: Global,
        room: usize,
        fails: Vec<u64>,
        step: usize,
    ) -> Result<MemSink, NoMemory>
        requires moves { 1 ≤ step }
        requires numbered { ¬ Contains fails.items (2 ^ 64 - 1) }
        ensures { IfOk result (λ sink.
            sink ≡ record { held = []; room = room; plan = begun fails.items step }) }
    {
        Ok(MemSink {
            bytes: Vec::with_capacity(alloc, room)?,
            room,
            plan: FailurePlan::new(fails, step),
        })
    }

    /// The bytes that were put.
    pub fn held(&self) -> &[u8]
        ensures { result.now ≡ self.now.held }
    {
        &self.bytes
    }
}

impl Sink for MemSink {
    ghost held = { λ sink. Some sink.held };

    ghost room = { told_room };

    ghost sure = { λ _. false };

    ghost faults = { λ sink. sink.plan.faults };

    fn put(&mut self, piece: &[u8]) -> Result<usize, Failed>
        ensures within { IfOk result (λ count. count ≤ length piece.now) }
        ensures some { IfOk result (λ count. 0 < length piece.now → 0 < count) }
        ensures ok { IfOk result (λ count. self.new.held ≡ self.old.held ++ take count piece.now) }
        ensures lowered { IfOk result (λ count. self.old.room ≡ self.new.room + count) }
        ensures kept { OnErr result (self.new.held ≡ self.old.held) }
        ensures same { OnErr result (self.new.room ≡ self.old.room) }
        ensures cause { Counted self.old.plan.faults self.new.plan.faults (IsErr result) }

        // It fails exactly by its room and its plan, and moves as many bytes as that allows.
        ensures failed { IsErr result ↔ ((self.old.room < length piece.now)
            ⊎ Contains self.old.plan.fails self.old.plan.number) }
        ensures count { IfOk result (λ count. count ≡ min self.old.plan.step (length piece.now)) }
        ensures plan { self.new.plan ≡ called (is_err result) self.old.plan }
    {
        let count = cmp::min(self.plan.step(), piece.len());
        let failed = piece.len() > self.room || self.plan.fails_next();
        self.plan.count(failed);
        if failed || self.bytes.extend_from_slice(&piece[..count]).is_err() {
            return Err(Failed);
        }
        self.room -= count;
        Ok(count)
    }
}
