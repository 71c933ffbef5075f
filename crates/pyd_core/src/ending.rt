//! How a run has ended, and which machines it has lost.
ghost use Rattle.std.specs.Prelude.{◌≡◌, is_some};
ghost use Rattle.pyd_core.specs.Cores.{IsCore, state_of};

use crate::keeper::Core;
use pyd_value::End;

impl Core {
    /// How the run has ended, if it has.
    pub fn end(&self) -> Option<End>
        requires { IsCore self.now }
        ensures { result ≡ (state_of self.now).graph.end }
    {
        self.end
    }

    /// Whether the run has ended.
    pub fn has_ended(&self) -> bool
        requires { IsCore self.now }
        ensures { result ≡ is_some (state_of self.now).graph.end }
    {
        self.end.is_some()
    }

    /// Whether a machine is lost.
    pub fn is_lost(&self, machine: u32) -> bool
        requires { IsCore self.now }
        ensures { result ≡ (state_of self.now).lost machine }
    {
        pyd_desk::is_lost(self.desk.alive.as_slice(), machine)
    }
}
