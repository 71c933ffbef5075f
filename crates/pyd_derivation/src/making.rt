//! What each production makes of its parts, by its number.
ghost use Rattle.std.specs.Prelude.{◌≡◌, ◌<◌, ◌≤◌, length};
ghost use Rattle.pyd_derivation.specs.Forms.{does};
ghost use Rattle.pyd_derivation.specs.Makings.{action};
ghost use Rattle.pyd_derivation.specs.Productions.{grammar};

/// What a production makes of its parts.
#[derive(Clone, Copy)]
pub enum Making {
    Nothing,
    Same,
    Second,
    File(FileMaking),
    Statement(StatementMaking),
    Expression(ExpressionMaking),
}

/// What a production of files, functions and suites makes of its parts.
#[derive(Clone, Copy)]
pub enum FileMaking {
    End,
    Items,
    StatementItem,
    FunctionItem,
    Import,
    Names,
    Decorated,
    Function,
    Params,
    Stmts,
    Suite,
}

/// What a production of statements makes of its parts.
#[derive(Clone, Copy)]
pub enum StatementMaking {
    If,
    Elifs,
    While,
    For,
    Targets,
    TargetComma,
    Simple,
    Pass,
    Break,
    Continue,
    Return,
    Assert,
    Assign,
    Augment,
}

/// What a production of expressions makes of its parts.
#[derive(Clone, Copy)]
pub enum ExpressionMaking {
    Tests,
    Comma,
    Test,
    Condition,
    Or,
    And,
    Member,
    Not,
    Compare,
    Compared,
    NotIn,
    Chain,
    Link,
    Unary,
    Power,
    Suffixed,
    Suffix,
    Sub,
    Upper,
    Bound,
    Name,
    Int,
    Text,
    Constant,
    Group,
    Arguments,
}

/// What a production makes.
pub fn making_of(production: u8) -> Making
    requires { production < length grammar }
    ensures { action result ≡ does grammar production }
{
    match production {
        0..=21 => file_making(production),
        22..=43 => statement_making(production),
        44..=64 => test_making(production),
        65..=82 => operator_making(production),
        _ => atom_making(production),
    }
}

/// That of a production of files, functions and suites.
fn file_making(production: u8) -> Making
    requires first { 0 ≤ production }
    requires last { production ≤ 21 }
    ensures { action result ≡ does grammar production }
{
    match production {
        0 => Making::Same,
        1 => Making::File(FileMaking::Items),
        2 => Making::File(FileMaking::End),
        3 => Making::Same,
        4 => Making::File(FileMaking::FunctionItem),
        5 => Making::File(FileMaking::StatementItem),
        6 => Making::File(FileMaking::Import),
        7 => Making::File(FileMaking::Names),
        8 => Making::Nothing,
        9 => Making::File(FileMaking::Decorated),
        10 => Making::File(FileMaking::Function),
        11 => Making::File(FileMaking::Params),
        12 => Making::Nothing,
        13 => Making::Second,
        14 => Making::Nothing,
        15 => Making::File(FileMaking::Suite),
        16 => Making::File(FileMaking::Stmts),
        17 => Making::Nothing,
        18 => Making::Same,
        19 => Making::Same,
        20 => Making::Same,
        _ => Making::Same,
    }
}

/// That of a production of statements.
fn statement_making(production: u8) -> Making
    requires first { 22 ≤ production }
    requires last { production ≤ 43 }
    ensures { action result ≡ does grammar production }
{
    match production {
        22 => Making::Statement(StatementMaking::If),
        23 => Making::Statement(StatementMaking::Elifs),
        24 => Making::Nothing,
        25 => Making::Second,
        26 => Making::Nothing,
        27 => Making::Statement(StatementMaking::While),
        28 => Making::Statement(StatementMaking::For),
        29 => Making::Statement(StatementMaking::Targets),
        30 => Making::Nothing,
        31 => Making::Statement(StatementMaking::TargetComma),
        32 => Making::Nothing,
        33 => Making::Statement(StatementMaking::Simple),
        34 => Making::Statement(StatementMaking::Pass),
        35 => Making::Statement(StatementMaking::Break),
        36 => Making::Statement(StatementMaking::Continue),
        37 => Making::Statement(StatementMaking::Return),
        38 => Making::Statement(StatementMaking::Assert),
        39 => Making::Statement(StatementMaking::Assign),
        40 => Making::Statement(StatementMaking::Augment),
        41 => Making::Nothing,
        42 => Making::Second,
        _ => Making::Nothing,
    }
}

/// That of a production of tests.
fn test_making(production: u8) -> Making
    requires first { 44 ≤ production }
    requires last { production ≤ 64 }
    ensures { action result ≡ does grammar production }
{
    match production {
        44 => Making::Same,
        45 => Making::Nothing,
        46 => Making::Expression(ExpressionMaking::Tests),
        47 => Making::Expression(ExpressionMaking::Comma),
        48 => Making::Nothing,
        49 => Making::Expression(ExpressionMaking::Test),
        50 => Making::Expression(ExpressionMaking::Condition),
        51 => Making::Nothing,
        52 => Making::Expression(ExpressionMaking::Or),
        53 => Making::Expression(ExpressionMaking::Member),
        54 => Making::Nothing,
        55 => Making::Expression(ExpressionMaking::And),
        56 => Making::Expression(ExpressionMaking::Member),
        57 => Making::Nothing,
        58 => Making::Expression(ExpressionMaking::Not),
        59 => Making::Same,
        60 => Making::Expression(ExpressionMaking::Compare),
        61 => Making::Expression(ExpressionMaking::Compared),
        62 => Making::Expression(ExpressionMaking::Compared),
        63 => Making::Expression(ExpressionMaking::NotIn),
        _ => Making::Nothing,
    }
}

/// That of a production of operators.
fn operator_making(production: u8) -> Making
    requires first { 65 ≤ production }
    requires last { production ≤ 82 }
    ensures { action result ≡ does grammar production }
{
    match production {
        65 => Making::Expression(ExpressionMaking::Chain),
        66 => Making::Expression(ExpressionMaking::Link),
        67 => Making::Nothing,
        68 => Making::Expression(ExpressionMaking::Chain),
        69 => Making::Expression(ExpressionMaking::Link),
        70 => Making::Nothing,
        71 => Making::Expression(ExpressionMaking::Chain),
        72 => Making::Expression(ExpressionMaking::Link),
        73 => Making::Nothing,
        74 => Making::Expression(ExpressionMaking::Chain),
        75 => Making::Expression(ExpressionMaking::Link),
        76 => Making::Nothing,
        77 => Making::Expression(ExpressionMaking::Chain),
        78 => Making::Expression(ExpressionMaking::Link),
        79 => Making::Nothing,
        80 => Making::Expression(ExpressionMaking::Chain),
        81 => Making::Expression(ExpressionMaking::Link),
        _ => Making::Nothing,
    }
}

/// That of a production of factors and atoms.
fn atom_making(production: u8) -> Making
    requires first { 83 ≤ production }
    requires last { production ≤ 103 }
    ensures { action result ≡ does grammar production }
{
    match production {
        83 => Making::Expression(ExpressionMaking::Unary),
        84 => Making::Same,
        85 => Making::Expression(ExpressionMaking::Power),
        86 => Making::Second,
        87 => Making::Nothing,
        88 => Making::Expression(ExpressionMaking::Suffixed),
        89 => Making::Expression(ExpressionMaking::Suffix),
        90 => Making::Nothing,
        91 => Making::Expression(ExpressionMaking::Sub),
        92 => Making::Expression(ExpressionMaking::Upper),
        93 => Making::Expression(ExpressionMaking::Bound),
        94 => Making::Nothing,
        95 => Making::Same,
        96 => Making::Nothing,
        97 => Making::Expression(ExpressionMaking::Name),
        98 => Making::Expression(ExpressionMaking::Int),
        99 => Making::Expression(ExpressionMaking::Text),
        100 => Making::Expression(ExpressionMaking::Constant),
        101 => Making::Expression(ExpressionMaking::Group),
        102 => Making::Expression(ExpressionMaking::Arguments),
        _ => Making::Nothing,
    }
}
