//! The limits of a run.
ghost use Rattle.std.specs.Prelude.{◌≡◌};
ghost use Rattle.pyd_meaning.specs.Defaults.{default_limits};

/// How many turns an activation of a loop may make, and how deep calls may be, the module being at
/// depth 0.
#[derive(Clone, Copy, Debug, PartialEq, Eq)]
pub struct Limits {
    pub turns: u64,
    pub depth: u32,
}

/// The turns of a loop where nothing else is asked for.
pub const DEFAULT_TURNS: u64 = 100_000;

/// The depth of calls where nothing else is asked for.
pub const DEFAULT_DEPTH: u32 = 64;

impl Limits {
    /// The limits of a run where nothing else is asked for.
    pub fn usual() -> Limits
        ensures { result ≡ default_limits }
    {
        Limits {
            turns: DEFAULT_TURNS,
            depth: DEFAULT_DEPTH,
        }
    }
}
