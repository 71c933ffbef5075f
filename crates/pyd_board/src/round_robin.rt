//! The placer that goes round the machines.
ghost use Rattle.std.specs.Prelude.{◌≡◌, Contains, Some, None, true};
ghost use Rattle.pyd_board.specs.declared.placer.Asked.TheVariants.{Place, Ended, Lost};
ghost use Rattle.pyd_board.specs.Placing as spec;

use crate::Placer;
use crate::machines::{least_live, live_from};

/// Answers the least live machine after the one it answered last, in circular order, and first 0 if
/// that lives. It tells no calls.
#[derive(Clone, Copy, Debug, PartialEq, Eq)]
pub struct RoundRobin {
    last: Option<u32>,
}

impl RoundRobin {
    /// A placer that has answered nothing. The number of machines plays no part in its answers: its
    /// circle is that of the entries of `alive`.
    pub fn new(machines: u32) -> RoundRobin
        ensures { result.last ≡ None }
    {
        RoundRobin { last: None }
    }
}

impl Placer for RoundRobin {
    ghost calls = { λ _. None };

    fn place(&mut self, node: u64, func: u32, alive: &[bool]) -> u32
        ensures value { result ≡ spec.next_live alive.now self.old.last }
        ensures last { self.new.last ≡ Some result }
        ensures calls { spec.Told None (Place node func result) None }
    {
        let machine = next_live(alive, self.last);
        self.last = Some(machine);
        machine
    }

    fn ended(&mut self, node: u64, machine: u32)
        ensures same { self.new ≡ self.old }
        ensures calls { spec.Told None (Ended node machine) None }
    {}

    fn lost(&mut self, machine: u32)
        ensures same { self.new ≡ self.old }
        ensures calls { spec.Told None (Lost machine) None }
    {}
}

// The place behind the machine that was answered last, 0 before the first answer.
fn behind(last: Option<u32>) -> usize
    ensures { result ≡ spec.behind last }
{
    match last {
        None => 0,
        Some(machine) => machine as usize + 1,
    }
}

// The least live machine behind the last one, in circular order.
fn next_live(alive: &[bool], last: Option<u32>) -> u32
    ensures { result ≡ spec.next_live alive.now last }
{
    match live_from(alive, behind(last)) {
        Some(machine) => machine,
        None => least_live(alive),
    }
}
