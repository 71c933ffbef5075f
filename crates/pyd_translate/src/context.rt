//! What nodes are made in.
ghost use Rattle.std.specs.Prelude.{◌≡◌, option_map};
ghost use Rattle.std.specs.Option.{option_copied};
ghost use Rattle.pyd_names.specs.Binding as names;
ghost use Rattle.pyd_scope.specs.Parts.{function_routine};
ghost use Rattle.pyd_translate.specs.Sides.{numbered};
ghost use Rattle.pyd_translate.specs.Drafts.{context_of};

use pyd_ir::Arg;
use pyd_scope::{Program, Routine};
use pyd_tree::Expr;
use std::alloc::Global;

/// A line of a routine of a program that was called at a depth, with the arguments of its slots.
#[derive(Clone, Copy)]
pub struct Context<'a> {
    pub alloc: Global,
    pub program: &'a Program,
    pub routine: u32,
    pub depth: u32,
    pub line: u32,
    pub env: &'a [Arg],
}

impl<'a> Context<'a> {
    /// The routine of a function, counted from 1.
    pub(crate) fn function(&self, number: u32) -> Option<&'a Routine>
        ensures { option_copied result
            ≡ option_map function_routine (names.function self.now.program.now.file number) }
    {
        if number == 0 {
            return None;
        }
        self.program.routines.get(number as usize)
    }

    /// An expression by its number in the routine.
    pub(crate) fn expression(&self, number: u32) -> Option<&'a Expr>
        ensures { option_copied result
            ≡ numbered (self.now.program.now.file) (context_of self.now) number }
    {
        self.program.expression(self.routine, number)
    }
}
