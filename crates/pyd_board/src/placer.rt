//! Placers, which choose the machine of a node.
ghost use Rattle.std.specs.Prelude.{List, Option, Contains, true};
ghost use Rattle.pyd_board.specs.declared.placer.Asked.{Asked as Call};
ghost use Rattle.pyd_board.specs.declared.placer.Asked.TheVariants.{Place, Ended, Lost};
ghost use Rattle.pyd_board.specs.Placing.{Told};

/// A call that was made of a placer.
#[derive(Clone, Copy, Debug, PartialEq, Eq)]
pub enum Asked {
    /// The node, the routine that it calls, 0 for an operator, and the answer.
    Place(u64, u32, u32),
    /// The node and the machine that finished it.
    Ended(u64, u32),
    /// The machine that was lost.
    Lost(u32),
}

/// What chooses machines. It is asked once for each Place, and told of each Finish and each Lose.
/// An answer that names no live machine counts as the least live one. No call fails or takes memory.
pub trait Placer: Drop {
    /// The calls so far, where the placer tells them.
    ghost calls: { Self → Option (List Call) };

    /// The machine for a node that calls this routine, which is 0 for an operator. Entry m of
    /// `alive` says whether machine m lives; some entry is true.
    fn place(&mut self, node: u64, func: u32, alive: &[bool]) -> u32
        requires alive { Contains alive.now true }
        ensures calls { Told (calls self.old) (Place node func result) (calls self.new) };

    /// The node's outcome came from this machine.
    fn ended(&mut self, node: u64, machine: u32)
        ensures calls { Told (calls self.old) (Ended node machine) (calls self.new) };

    fn lost(&mut self, machine: u32)
        ensures calls { Told (calls self.old) (Lost machine) (calls self.new) };
}
