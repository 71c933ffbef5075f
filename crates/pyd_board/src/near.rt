//! The placer that stays where work ended.
ghost use Rattle.std.specs.Prelude.{◌≡◌, Contains, None, true};
ghost use Rattle.pyd_board.specs.declared.placer.Asked.TheVariants.{Place, Ended, Lost};
ghost use Rattle.pyd_board.specs.Placing.{Told};

use crate::Placer;

/// Answers the machine of the last `ended`, and 0 before the first. It tells no calls.
#[derive(Clone, Copy, Debug, PartialEq, Eq)]
pub struct Near {
    machine: u32,
}

impl Near {
    /// A placer that was told of no `ended`.
    pub fn new() -> Near
        ensures { result.machine ≡ 0 }
    {
        Near { machine: 0 }
    }
}

impl Placer for Near {
    ghost calls = { λ _. None };

    fn place(&mut self, node: u64, func: u32, alive: &[bool]) -> u32
        ensures value { result ≡ self.old.machine }
        ensures same { self.new ≡ self.old }
        ensures calls { Told None (Place node func result) None }
    {
        self.machine
    }

    fn ended(&mut self, node: u64, machine: u32)
        ensures machine { self.new.machine ≡ machine }
        ensures calls { Told None (Ended node machine) None }
    {
        self.machine = machine;
    }

    fn lost(&mut self, machine: u32)
        ensures same { self.new ≡ self.old }
        ensures calls { Told None (Lost machine) None }
    {}
}
