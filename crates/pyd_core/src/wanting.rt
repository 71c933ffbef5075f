//! Nodes that could be placed before losses.
ghost use Rattle.std.specs.Prelude.{◌≡◌, true, is_some};
ghost use Rattle.std.specs.Option.{option_copied};
ghost use Rattle.pyd_runs.specs.Deciding as runs;
ghost use Rattle.pyd_runs.specs.Records.{job_by};
ghost use Rattle.pyd_desk.specs.Reading.{given_of};
ghost use Rattle.pyd_core.specs.Cores.{IsCore, state_of};
ghost use Rattle.pyd_core.specs.Placing.{WantedLaw, is_wanted};

use crate::keeper::Core;
use pyd_desk::{Desk, find, heads};
use pyd_ir::Node;
use pyd_runs::run_law;

impl Core {
    /// Whether a node may be placed that is needed, and has none of a record, a ticket and a claim.
    pub fn may_place(&self, node: u64) -> bool
        requires core { IsCore self.now }
        requires wanted { is_wanted (state_of self.now) node ≡ true }
        ensures { result ≡ runs.may_place (state_of self.now) node }
    {
        run_law();
        is_ready(
            &self.desk,
            find(self.line.nodes.as_slice(), node),
            self.line.chain(),
        )
    }
}

/// Whether a node, if there is one, is ready before this chain.
fn is_ready(desk: &Desk, node: Option<&Node>, chain: &[Node]) -> bool
    ensures { result
        ≡ is_some (job_by chain.now (given_of desk.now) 0 (option_copied node.entry)) }
{
    match node {
        Some(node) => desk.is_ready(node, heads(node.id, chain)),
        None => false,
    }
}

/// A node that is needed and free before losses is so behind them.
pub fn wanted_law()
    ensures { WantedLaw }
{}
