//! What an expression gives.
ghost use Rattle.std.specs.Prelude.{◌≡◌, IfOk};
ghost use Rattle.pyd_ops.specs.Answer.{outcome_of};
ghost use Rattle.pyd_value.specs.Truth as spec;
ghost use Rattle.pyd_eval.specs.Given.{value_of, seen};

use pyd_value::{Fault, NoMemory, Outcome, Value, truth, try_copy};
use std::alloc::Global;

/// The value of an expression: its own, or one that lies in a slot, a tuple, a constant or the tree.
#[derive(Drop)]
pub(crate) enum Got<'a> {
    Own(Value),
    Lent(&'a Value),
}

impl<'a> Got<'a> {
    pub(crate) fn value(&self) -> &Value
        ensures { result.now ≡ value_of self.now }
    {
        match self {
            Got::Own(v) => v,
            Got::Lent(v) => v,
        }
    }

    pub(crate) fn into_value(self, alloc: Global) -> Result<Value, NoMemory>
        ensures { IfOk result (λ v. v ≡ value_of self.entry) }
    {
        match self {
            Got::Own(v) => Ok(v),
            Got::Lent(v) => try_copy(alloc, v),
        }
    }

    /// Whether the value counts as true.
    pub(crate) fn holds(&self) -> bool
        ensures { result ≡ spec.is_true (value_of self.now) }
    {
        truth(self.value())
    }

    /// Whether the value, which is dropped, counts as true.
    pub(crate) fn is_true(self) -> bool
        ensures { result ≡ spec.is_true (value_of self.entry) }
    {
        let holds = truth(self.value());
        drop(self);
        holds
    }
}

/// What an operation gave.
pub(crate) fn given<'a>(outcome: Outcome) -> Result<Got<'a>, Fault>
    ensures { outcome_of (seen result) ≡ outcome }
{
    match outcome {
        Outcome::Ok(v) => Ok(Got::Own(v)),
        Outcome::Fault(fault) => Err(fault),
    }
}

/// What a call gave.
pub(crate) fn owned<'a>(got: Result<Value, Fault>) -> Result<Got<'a>, Fault>
    ensures { seen result ≡ got }
{
    match got {
        Ok(v) => Ok(Got::Own(v)),
        Err(fault) => Err(fault),
    }
}
