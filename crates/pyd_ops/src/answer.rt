//! How values and faults are answered.
ghost use Rattle.std.specs.Prelude.{◌≡◌};
ghost use Rattle.pyd_ops.specs.Answer.{outcome_of, raise, exceed};
ghost use Rattle.pyd_ops.specs.Comparing.{truth_value};
ghost use Rattle.pyd_ops.specs.Integer.{checked};

use pyd_value::{Fault, Kind, Limit, Outcome, Value};

/// An exception in a line.
pub(crate) fn raise(kind: Kind, line: u32) -> Outcome
    ensures { result ≡ outcome_of (raise kind line) }
{
    Outcome::Fault(Fault::Raised(kind, line))
}

/// The fault of a limit in a line.
pub(crate) fn exceed(limit: Limit, line: u32) -> Outcome
    ensures { result ≡ outcome_of (exceed limit line) }
{
    Outcome::Fault(Fault::Limit(limit, line))
}

/// A truth value, or `TypeError` where there is no answer.
pub(crate) fn truth_value(answer: Option<bool>, line: u32) -> Outcome
    ensures { result ≡ outcome_of (truth_value answer line) }
{
    match answer {
        Some(b) => Outcome::Ok(Value::Bool(b)),
        None => raise(Kind::TypeError, line),
    }
}

/// An integer, or the limit fault where it is too wide.
pub(crate) fn checked(n: Option<i128>, line: u32) -> Outcome
    ensures { result ≡ outcome_of (checked n line) }
{
    match n {
        Some(n) => Outcome::Ok(Value::Int(n)),
        None => exceed(Limit::Int, line),
    }
}
