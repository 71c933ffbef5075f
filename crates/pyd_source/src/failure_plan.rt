//! When the calls of an object in memory fail.
ghost use Rattle.std.specs.Prelude.{◌≡◌, ◌↔◌, ◌-◌, ◌^◌, ◌≤◌, Contains, IsTrue};
ghost use Rattle.pyd_source.specs.Faults.{Counted};
ghost use Rattle.pyd_source.specs.FailurePlan.{begun, called};

use std::marker::Model;

/// The calls that fail, by their numbers from 0 on, and the most bytes that one moves.
#[derive(Debug, Drop)]
pub(crate) struct FailurePlan {
    fails: Vec<u64>,
    step: usize,
    number: u64,
    faults: u64,
}

impl Model for FailurePlan {
    ghost use Rattle.pyd_source.specs.FailurePlan.{FailurePlan as Calls, plan_code};

    ghost Value = { Calls };

    ghost coded = { plan_code };

    ghost view = { λ s. record { fails = s.fails.items; step = s.step; number = s.number; faults = s.faults } };
}

impl FailurePlan {
    pub(crate) fn new(fails: Vec<u64>, step: usize) -> FailurePlan
        ensures { result ≡ begun fails.items step }
    {
        FailurePlan {
            fails,
            step,
            number: 0,
            faults: 0,
        }
    }

    pub(crate) fn step(&self) -> usize
        ensures { result ≡ self.now.step }
    {
        self.step
    }

    /// Whether the next call's number is one of those that fail.
    pub(crate) fn fails_next(&self) -> bool
        ensures { IsTrue result ↔ Contains self.now.fails self.now.number }
    {
        self.fails.contains(&self.number)
    }

    /// Counts a call, and a fault where it failed.
    pub(crate) fn count(&mut self, failed: bool)
        ensures after { self.new ≡ called failed self.old }
        ensures cause { Counted self.old.faults self.new.faults (IsTrue failed) }
    {
        self.number = self.number.saturating_add(1);
        if failed {
            self.faults = self.faults.saturating_add(1);
        }
    }
}
