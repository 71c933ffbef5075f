//! An activation of a routine: what its statements and expressions stand in.
ghost use Rattle.std.specs.Prelude.{◌≡◌, ◌<◌, ◌+◌, map, option_map, slice_get, length};
ghost use Rattle.pyd_names.specs.Binding as names;
ghost use Rattle.pyd_scope.specs.Resolving.{slots_of};

use pyd_meaning::Limits;
use pyd_scope::Program;
use pyd_tree::Func;
use std::alloc::Global;

/// A routine of a program, called at a depth; the module is routine 0 at depth 0.
#[derive(Clone, Copy)]
pub(crate) struct Activation<'a> {
    pub alloc: Global,
    pub program: &'a Program,
    /// The functions of the program in text order.
    pub functions: &'a [&'a Func],
    pub limits: Limits,
    pub routine: u32,
    pub depth: u32,
    ghost its_functions: { map (λ f. f.now) functions.now ≡ names.functions program.now.file },
    ghost known: { routine < length program.now.routines },
}

impl<'a> Activation<'a> {
    /// The function with this number, counted from 1.
    pub(crate) fn function(&self, routine: u32) -> Option<&'a Func>
        ensures { option_map (λ f. f.now) result
            ≡ names.function self.now.program.now.file routine }
    {
        if routine == 0 {
            return None;
        }
        nth(self.functions, routine as usize - 1)
    }

    /// An activation of a function, one deeper.
    pub(crate) fn called(&self, routine: u32) -> Activation<'a>
        requires known { routine < length self.now.program.now.routines }
        requires deep { self.now.depth < self.now.limits.depth }
        ensures program { result.program ≡ self.now.program }
        ensures limits { result.limits ≡ self.now.limits }
        ensures routine { result.routine ≡ routine }
        ensures depth { result.depth ≡ self.now.depth + 1 }
    {
        Activation {
            alloc: self.alloc,
            program: self.program,
            functions: self.functions,
            limits: self.limits,
            routine,
            depth: self.depth + 1,
        }
    }

    /// How many slots the routine has.
    pub(crate) fn slot_count(&self) -> usize
        ensures { result ≡ length (slots_of self.now.program.now self.now.routine) }
    {
        self.program.routines.as_slice()[self.routine as usize]
            .slots
            .len()
    }
}

/// The function at a place, counted from 0.
fn nth<'a>(functions: &[&'a Func], at: usize) -> Option<&'a Func>
    ensures { result ≡ slice_get functions.now at }
{
    functions.get(at).copied()
}
