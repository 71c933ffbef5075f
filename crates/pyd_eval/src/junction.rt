//! `and` and `or` (Python Language Reference, section 6.11).
ghost use Rattle.std.specs.Prelude.{◌≡◌};
ghost use Rattle.pyd_eval.specs.Given.{value_of};
ghost use Rattle.pyd_eval.specs.Junctions as spec;

use crate::got::Got;
use pyd_value::{Value, truth};

/// Which of the two an expression is.
#[derive(Clone, Copy)]
pub(crate) enum Junction {
    And,
    Or,
}

impl Junction {
    /// What it gives of no members.
    pub(crate) fn of_none<'a>(self) -> Got<'a>
        ensures { value_of result ≡ spec.value_of_none self }
    {
        match self {
            Junction::And => Got::Own(Value::Bool(true)),
            Junction::Or => Got::Own(Value::Bool(false)),
        }
    }

    /// Whether a member's value ends it: a false one an `and`, a true one an `or`.
    pub(crate) fn is_ended_by(self, member: &Got<'_>) -> bool
        ensures { result ≡ spec.is_ended_by self (value_of member.now) }
    {
        match self {
            Junction::And => !truth(member.value()),
            Junction::Or => truth(member.value()),
        }
    }
}
