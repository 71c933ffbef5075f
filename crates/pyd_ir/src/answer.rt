//! How faults are answered.
ghost use Rattle.std.specs.Prelude.{◌≡◌};
ghost use Rattle.pyd_ops.specs.Answer.{outcome_of, raise, exceed};

use pyd_value::{Fault, Kind, Limit, Outcome};

/// An exception in a line.
pub(crate) fn raise(kind: Kind, line: u32) -> Outcome
    ensures { result ≡ outcome_of (raise kind line) }
{
    Outcome::Fault(Fault::Raised(kind, line))
}

/// The fault of a limit in a line.
pub(crate) fn exceed(limit: Limit, line: u32) -> Outcome
    ensures { result ≡ outcome_of (exceed limit line) }
{
    Outcome::Fault(Fault::Limit(limit, line))
}
