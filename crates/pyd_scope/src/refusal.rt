//! Why a file isn't accepted.
ghost use Rattle.std.specs.Prelude.{◌≡◌};
ghost use Rattle.pyd_scope.specs.Numbers as spec;

/// The rule of scope that a file breaks, with the least line that breaks it, counted from 1.
#[derive(Clone, Copy, Debug, PartialEq, Eq)]
pub enum Refusal {
    TwiceDefined(u32),
    Rebind(u32),
    FunctionValue(u32),
    CallOfVariable(u32),
    GlobalRead(u32),
    Impure(u32),
    ReturnOutside(u32),
    BreakOutside(u32),
    LateDef(u32),
    NotConstant(u32),
    Decorator(u32),
    TwiceParameter(u32),
}

/// Why `check` has no program to give.
#[derive(Clone, Copy, Debug, PartialEq, Eq)]
pub enum CheckStop {
    Refused(Refusal),
    NoMemory,
}

impl Refusal {
    /// The number of the rule, from 1 to 12.
    pub fn number(&self) -> u32
        ensures { result ≡ spec.number self.now }
    {
        match self {
            Refusal::TwiceDefined(_) => 1,
            Refusal::Rebind(_) => 2,
            Refusal::FunctionValue(_) => 3,
            Refusal::CallOfVariable(_) => 4,
            Refusal::GlobalRead(_) => 5,
            Refusal::Impure(_) => 6,
            Refusal::ReturnOutside(_) => 7,
            Refusal::BreakOutside(_) => 8,
            Refusal::LateDef(_) => 9,
            Refusal::NotConstant(_) => 10,
            Refusal::Decorator(_) => 11,
            Refusal::TwiceParameter(_) => 12,
        }
    }

    /// The least line that breaks the rule.
    pub fn line(&self) -> u32
        ensures { result ≡ spec.line self.now }
    {
        match self {
            Refusal::TwiceDefined(line)
            | Refusal::Rebind(line)
            | Refusal::FunctionValue(line)
            | Refusal::CallOfVariable(line)
            | Refusal::GlobalRead(line)
            | Refusal::Impure(line)
            | Refusal::ReturnOutside(line)
            | Refusal::BreakOutside(line)
            | Refusal::LateDef(line)
            | Refusal::NotConstant(line)
            | Refusal::Decorator(line)
            | Refusal::TwiceParameter(line) => *line,
        }
    }
}
