//! How statements are left.
ghost use Rattle.std.specs.Prelude.{◌≡◌};
ghost use Rattle.pyd_meaning.specs.Completion as meaning;
ghost use Rattle.pyd_eval.specs.Left.{completion_of, exit_of};

use pyd_value::Value;

/// How statements are left: to what follows them, out of a loop, to its next turn, or out of the
/// routine with a value.
#[derive(Drop)]
pub(crate) enum Completion {
    Normal,
    Break,
    Continue,
    Return(Value),
}

impl Completion {
    /// The value of a call whose body was left so.
    pub(crate) fn into_value(self) -> Value
        ensures { result ≡ meaning.value_after (completion_of self) }
    {
        match self {
            Completion::Normal | Completion::Break | Completion::Continue => Value::None,
            Completion::Return(v) => v,
        }
    }

    /// How a loop is left whose turn was left so; none where it goes on.
    pub(crate) fn exit(self) -> Option<Completion>
        ensures { result ≡ exit_of self }
    {
        match self {
            Completion::Normal | Completion::Continue => None,
            Completion::Break => Some(Completion::Normal),
            Completion::Return(v) => Some(Completion::Return(v)),
        }
    }
}
