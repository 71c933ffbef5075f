//! The modes and the options of the command, one row each.
ghost use Rattle.std.specs.Prelude.{◌≡◌};
ghost use Rattle.pyd_words.specs.Options as spec;
ghost use Rattle.pyd_words.specs.Rows.{choice_of};

use crate::plan::Mode;

/// The modes, each with its name.
pub const MODES: [(&str, Mode); 6] = [
    ("run", Mode::Run),
    ("trace", Mode::Trace),
    ("check", Mode::Check),
    ("graph", Mode::Graph),
    ("replay", Mode::Replay),
    ("demo", Mode::Demo),
];

/// An option that takes a number.
#[derive(Clone, Copy, Debug)]
pub struct Numeral {
    pub name: &'static str,
    pub least: u64,
    pub most: u64,
    /// The number that counts where none is given.
    pub default: u64,
}

pub const MACHINES: Numeral = Numeral {
    name: "machines",
    least: 1,
    most: 16,
    default: 1,
};

pub const WORKERS: Numeral = Numeral {
    name: "workers",
    least: 1,
    most: 4,
    default: 1,
};

pub const TURNS: Numeral = Numeral {
    name: "turns",
    least: 1,
    most: 1_000_000,
    default: 100_000,
};

pub const DEPTH: Numeral = Numeral {
    name: "depth",
    least: 1,
    most: 64,
    default: 64,
};

pub const WINDOW: Numeral = Numeral {
    name: "window",
    least: 1,
    most: 100_000,
    default: 1_000,
};

pub const NUMBER: Numeral = Numeral {
    name: "number",
    least: 0,
    most: u64::MAX,
    default: 0,
};

/// An option, by what its value is: a number, a way to place nodes, or a loss script.
#[derive(Clone, Copy, Debug)]
pub enum Choice {
    Numeral(Numeral),
    Place,
    Lose,
}

/// The options in their order.
pub const OPTIONS: [Choice; 8] = [
    Choice::Numeral(MACHINES),
    Choice::Numeral(WORKERS),
    Choice::Numeral(TURNS),
    Choice::Numeral(DEPTH),
    Choice::Numeral(WINDOW),
    Choice::Place,
    Choice::Lose,
    Choice::Numeral(NUMBER),
];

impl Choice {
    pub fn name(&self) -> &'static str
        ensures { result.now ≡ spec.name_of (choice_of self.now) }
    {
        match self {
            Choice::Numeral(numeral) => numeral.name,
            Choice::Place => "place",
            Choice::Lose => "lose",
        }
    }
}
