//! A statement where it stands.
ghost use Rattle.std.specs.Prelude.{◌≡◌};
ghost use Rattle.pyd_translate.specs.Drafts.{context_of, file_of};
ghost use Rattle.pyd_translate.specs.Flows.{context_at, file_in, spot_in};

use crate::context::Context;
use crate::setting::{Point, Setting};
use pyd_ir::{Arg, Frame};

/// The line and the place of a statement, whether it may leave its block early, and what goes on behind
/// that block.
#[derive(Clone, Copy)]
pub struct Spot<'a> {
    pub setting: Setting<'a>,
    pub line: u32,
    pub point: Point,
    pub early: bool,
    pub rest: &'a [Frame],
}

impl<'a> Spot<'a> {
    /// What the nodes of the statement are made in, with these arguments of the slots.
    pub fn context<'b>(&'b self, env: &'b [Arg]) -> Context<'b>
        ensures context { context_of result ≡ context_at self.now env.now }
        ensures file { file_of result ≡ file_in self.now.setting }
    {
        self.setting.context(self.line, env)
    }

    /// The same statement in another line.
    pub fn in_line(&self, line: u32) -> Spot<'a>
        ensures { result ≡ spot_in self.now line }
    {
        Spot {
            setting: self.setting,
            line,
            point: self.point,
            early: self.early,
            rest: self.rest,
        }
    }
}
