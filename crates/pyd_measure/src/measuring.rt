//! How the measure of each production comes from those of its parts.
ghost use Rattle.std.specs.Prelude.{◌≡◌, ◌<◌, ◌≤◌, length};
ghost use Rattle.pyd_derivation.specs.Productions.{grammar};
ghost use Rattle.pyd_measure.specs.Measurings as spec;

/// How the measure of a production comes from those of its parts.
#[derive(Clone, Copy)]
pub enum Measuring {
    Nothing,
    Same,
    Second,
    /// What isn't measured, of so many parts.
    Unmeasured(u8),
    If,
    Elifs,
    While,
    For,
    Simple,
    /// `pass`, `break` or `continue`.
    Jump,
    Return,
    Assert,
    Assign,
    Augment,
    Tests,
    Comma,
    Test,
    Condition,
    /// One operand, or several joined by `or` or `and`.
    Junction,
    Member,
    Unary,
    Compare,
    Compared,
    NotIn,
    Chain,
    Link,
    Power,
    Suffixed,
    Suffix,
    Sub,
    Upper,
    Bound,
    Name,
    Literal,
    Group,
    Arguments,
}

/// How many parts are measured together.
pub fn arity(measuring: Measuring) -> usize
    ensures { result ≡ spec.arity measuring }
{
    match measuring {
        Measuring::Unmeasured(parts) => parts as usize,
        Measuring::Nothing => 0,
        Measuring::Same => 1,
        Measuring::Literal => 1,
        Measuring::Second => 2,
        Measuring::Jump => 2,
        Measuring::Assign => 2,
        Measuring::Augment => 2,
        Measuring::Tests => 2,
        Measuring::Comma => 2,
        Measuring::Test => 2,
        Measuring::Junction => 2,
        Measuring::Unary => 2,
        Measuring::Compare => 2,
        Measuring::Chain => 2,
        Measuring::Power => 2,
        Measuring::Suffixed => 2,
        Measuring::Sub => 2,
        Measuring::Upper => 2,
        Measuring::Bound => 2,
        Measuring::Name => 2,
        Measuring::While => 3,
        Measuring::Simple => 3,
        Measuring::Return => 3,
        Measuring::Member => 3,
        Measuring::Compared => 3,
        Measuring::Link => 3,
        Measuring::Group => 3,
        Measuring::Arguments => 3,
        Measuring::Elifs => 4,
        Measuring::Assert => 4,
        Measuring::Condition => 4,
        Measuring::NotIn => 4,
        Measuring::Suffix => 4,
        Measuring::If => 5,
        Measuring::For => 6,
    }
}

/// How a production is measured.
pub fn measuring_of(production: u8) -> Measuring
    requires { production < length grammar }
    ensures { result ≡ spec.measuring_of production }
{
    match production {
        0..=21 => file_measuring(production),
        22..=43 => statement_measuring(production),
        44..=64 => test_measuring(production),
        65..=82 => operator_measuring(production),
        _ => atom_measuring(production),
    }
}

/// That of a production of files, functions and suites.
fn file_measuring(production: u8) -> Measuring
    requires first { 0 ≤ production }
    requires last { production ≤ 21 }
    ensures { result ≡ spec.measuring_of production }
{
    match production {
        0 => Measuring::Same,
        1 => Measuring::Unmeasured(2),
        2 => Measuring::Unmeasured(1),
        3 => Measuring::Same,
        4 => Measuring::Unmeasured(1),
        5 => Measuring::Unmeasured(1),
        6 => Measuring::Unmeasured(6),
        7 => Measuring::Unmeasured(3),
        8 => Measuring::Nothing,
        9 => Measuring::Unmeasured(4),
        10 => Measuring::Unmeasured(6),
        11 => Measuring::Unmeasured(2),
        12 => Measuring::Nothing,
        13 => Measuring::Second,
        14 => Measuring::Nothing,
        15 => Measuring::Unmeasured(6),
        16 => Measuring::Unmeasured(2),
        17 => Measuring::Nothing,
        18 => Measuring::Same,
        19 => Measuring::Same,
        20 => Measuring::Same,
        _ => Measuring::Same,
    }
}

/// That of a production of statements.
fn statement_measuring(production: u8) -> Measuring
    requires first { 22 ≤ production }
    requires last { production ≤ 43 }
    ensures { result ≡ spec.measuring_of production }
{
    match production {
        22 => Measuring::If,
        23 => Measuring::Elifs,
        24 => Measuring::Nothing,
        25 => Measuring::Second,
        26 => Measuring::Nothing,
        27 => Measuring::While,
        28 => Measuring::For,
        29 => Measuring::Unmeasured(2),
        30 => Measuring::Nothing,
        31 => Measuring::Unmeasured(2),
        32 => Measuring::Nothing,
        33 => Measuring::Simple,
        34 => Measuring::Jump,
        35 => Measuring::Jump,
        36 => Measuring::Jump,
        37 => Measuring::Return,
        38 => Measuring::Assert,
        39 => Measuring::Assign,
        40 => Measuring::Augment,
        41 => Measuring::Nothing,
        42 => Measuring::Second,
        _ => Measuring::Nothing,
    }
}

/// That of a production of tests.
fn test_measuring(production: u8) -> Measuring
    requires first { 44 ≤ production }
    requires last { production ≤ 64 }
    ensures { result ≡ spec.measuring_of production }
{
    match production {
        44 => Measuring::Same,
        45 => Measuring::Nothing,
        46 => Measuring::Tests,
        47 => Measuring::Comma,
        48 => Measuring::Nothing,
        49 => Measuring::Test,
        50 => Measuring::Condition,
        51 => Measuring::Nothing,
        52 => Measuring::Junction,
        53 => Measuring::Member,
        54 => Measuring::Nothing,
        55 => Measuring::Junction,
        56 => Measuring::Member,
        57 => Measuring::Nothing,
        58 => Measuring::Unary,
        59 => Measuring::Same,
        60 => Measuring::Compare,
        61 => Measuring::Compared,
        62 => Measuring::Compared,
        63 => Measuring::NotIn,
        _ => Measuring::Nothing,
    }
}

/// That of a production of operators.
fn operator_measuring(production: u8) -> Measuring
    requires first { 65 ≤ production }
    requires last { production ≤ 82 }
    ensures { result ≡ spec.measuring_of production }
{
    match production {
        65 => Measuring::Chain,
        66 => Measuring::Link,
        67 => Measuring::Nothing,
        68 => Measuring::Chain,
        69 => Measuring::Link,
        70 => Measuring::Nothing,
        71 => Measuring::Chain,
        72 => Measuring::Link,
        73 => Measuring::Nothing,
        74 => Measuring::Chain,
        75 => Measuring::Link,
        76 => Measuring::Nothing,
        77 => Measuring::Chain,
        78 => Measuring::Link,
        79 => Measuring::Nothing,
        80 => Measuring::Chain,
        81 => Measuring::Link,
        _ => Measuring::Nothing,
    }
}

/// That of a production of factors and atoms.
fn atom_measuring(production: u8) -> Measuring
    requires first { 83 ≤ production }
    requires last { production ≤ 103 }
    ensures { result ≡ spec.measuring_of production }
{
    match production {
        83 => Measuring::Unary,
        84 => Measuring::Same,
        85 => Measuring::Power,
        86 => Measuring::Second,
        87 => Measuring::Nothing,
        88 => Measuring::Suffixed,
        89 => Measuring::Suffix,
        90 => Measuring::Nothing,
        91 => Measuring::Sub,
        92 => Measuring::Upper,
        93 => Measuring::Bound,
        94 => Measuring::Nothing,
        95 => Measuring::Same,
        96 => Measuring::Nothing,
        97 => Measuring::Name,
        98 => Measuring::Literal,
        99 => Measuring::Literal,
        100 => Measuring::Literal,
        101 => Measuring::Group,
        102 => Measuring::Arguments,
        _ => Measuring::Nothing,
    }
}
