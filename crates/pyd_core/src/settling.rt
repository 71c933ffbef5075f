//! Settling the head of the chain: what goes out is prepared first, and done once it is out.
ghost use Rattle.std.specs.Prelude.{◌≡◌, ◌<◌, None, All, IfOk, MatchOption, length};
ghost use Rattle.pyd_runs.specs.Enabled.{IsQuiet};
ghost use Rattle.pyd_runs.specs.Plans.{IsSeat};
ghost use Rattle.pyd_desk.specs.Lines.{chain_of};
ghost use Rattle.pyd_core.specs.Cores.{HasRoom, IsCore, plan_of, state_of};
ghost use Rattle.pyd_core.specs.Leaving.{HasLeft};
ghost use Rattle.pyd_core.specs.Settling.{IsSettling, NoneSettles, SettlesHead};
ghost use Rattle.pyd_core.specs.Steps.{UsesRoom};

use crate::keeper::Core;
use crate::preparing::prepare_head;
use crate::starting::end_of;
use pyd_board::Act;
use pyd_desk::pass_head;
use pyd_meaning::Ran;
use pyd_runs::{head_law, journal_law, run_law, step_law};
use pyd_value::{Boxed, End, List, NoMemory, Text};

/// What a node leaves behind.
#[derive(Drop)]
pub enum Leaves {
    /// It gave a value, and the driver keeps this of it.
    Passed(Option<Boxed<Ran>>),
    /// The run ends so.
    Ended(End),
}

/// The lines that go out as the head is settled, and what it leaves.
#[derive(Drop)]
pub struct Settling {
    pub lines: List<Text>,
    pub leaves: Leaves,
}

impl Core {
    /// What settles the head; none where no node may be settled.
    pub fn prepare(&self) -> Result<Option<Settling>, NoMemory>
        requires core { IsCore self.now }
        requires goes_on { (state_of self.now).graph.end ≡ None }
        ensures { IfOk result (λ found. MatchOption found
            (NoneSettles (state_of self.now))
            (IsSettling (plan_of self.now) (state_of self.now))) }
    {
        run_law();
        head_law();
        prepare_head(self.alloc, &self.desk, self.line.head())
    }

    /// A seat settles the head, for which there is an entry's room. Takes no memory.
    pub fn settle(&mut self, seat: u32, settling: Settling)
        requires core { IsCore self.old }
        requires quiet { IsQuiet (state_of self.old) }
        requires seat { IsSeat (plan_of self.old) seat }
        requires room { HasRoom 1 self.old }
        requires is { IsSettling (plan_of self.old) (state_of self.old) settling }
        ensures settles { SettlesHead self.old self.new seat settling.lines }
        ensures room { UsesRoom self.old self.new }
    {
        run_law();
        step_law();
        journal_law();
        let Settling { lines, leaves } = settling;
        drop(lines);
        let number = self.line.head().id;
        self.leave(leaves);
        self.log.note(seat, Act::Settle(number));
    }

    /// The head has left this.
    fn leave(&mut self, leaves: Leaves)
        requires head { self.old.line.settled < length self.old.line.nodes.items }
        requires driver { All (λ n. n.id < length self.old.desk.driver.items)
            (chain_of self.old.line) }
        ensures { HasLeft self.old self.new leaves }
    {
        match leaves {
            Leaves::Passed(kept) => {
                pass_head(&mut self.line, &mut self.desk, kept);
                self.end = end_of(self.line.chain());
            }
            Leaves::Ended(end) => self.end = Some(end),
        }
    }
}
