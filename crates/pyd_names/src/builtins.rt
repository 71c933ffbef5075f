//! The builtin functions by their names (Python Standard Library, "Built-in Functions").
ghost use Rattle.std.specs.Prelude.{◌≡◌};
ghost use Rattle.pyd_names.specs.Resolution as spec;

use pyd_value::{Builtin, Text};

/// The builtin of this name, or none.
pub fn builtin_named(name: &Text) -> Option<Builtin>
    ensures { result ≡ spec.builtin_named name.now }
{
    builtin_of(name.as_str())
}

/// The builtin whose name has these bytes, or none.
fn builtin_of(name: &str) -> Option<Builtin>
    ensures { result ≡ spec.builtin_named name.now }
{
    match name {
        "print" => Some(Builtin::Print),
        "len" => Some(Builtin::Len),
        "abs" => Some(Builtin::Abs),
        "min" => Some(Builtin::Min),
        "max" => Some(Builtin::Max),
        "sum" => Some(Builtin::Sum),
        "str" => Some(Builtin::Str),
        "repr" => Some(Builtin::Repr),
        "int" => Some(Builtin::Int),
        "bool" => Some(Builtin::Bool),
        "range" => Some(Builtin::Range),
        _ => None,
    }
}
