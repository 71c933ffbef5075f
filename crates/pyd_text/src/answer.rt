//! How faults and texts are answered.
ghost use Rattle.std.specs.Prelude.{◌≡◌, string_bytes};
ghost use Rattle.std.specs.Str.{chars};
ghost use Rattle.pyd_ops.specs.Answer.{outcome_of, raise, exceed, Answers};
ghost use Rattle.pyd_ops.specs.Joining.{text_value};

use pyd_value::{Fault, Kind, Limit, NoMemory, Outcome, Text, Value};
use std::alloc::Global;

/// An exception in a line.
pub(crate) fn raise(kind: Kind, line: u32) -> Outcome
    ensures { result ≡ outcome_of (raise kind line) }
{
    Outcome::Fault(Fault::Raised(kind, line))
}

/// The fault of a limit in a line.
pub(crate) fn exceed(limit: Limit, line: u32) -> Outcome
    ensures { result ≡ outcome_of (exceed limit line) }
{
    Outcome::Fault(Fault::Limit(limit, line))
}

/// A text, whose bytes stay where they are.
pub(crate) fn text_value(alloc: Global, text: String) -> Result<Outcome, NoMemory>
    ensures { Answers result (text_value (chars (string_bytes text))) }
{
    Ok(Outcome::Ok(Value::Text(Text::from_string(alloc, text)?)))
}
