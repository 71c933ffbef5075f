//! The marks.

ghost use Rattle.std.specs.Prelude.{◌≡◌, map, length, IfSome, ◌≤◌};
ghost use Rattle.pyd_lex.specs.Words.{first_front, front_mark};

use crate::run::begins;

/// An operator or a delimiter (Python Language Reference, sections 2.5 and 2.6).
#[derive(Clone, Copy, Debug, PartialEq, Eq)]
pub enum Mark {
    /// `**=`
    PowAssign,
    /// `//=`
    DivAssign,
    /// `<<=`
    ShlAssign,
    /// `>>=`
    ShrAssign,
    /// `**`
    Pow,
    /// `//`
    Div,
    /// `<<`
    Shl,
    /// `>>`
    Shr,
    /// `<=`
    Le,
    /// `>=`
    Ge,
    /// `==`
    Eq,
    /// `!=`
    Ne,
    /// `+=`
    AddAssign,
    /// `-=`
    SubAssign,
    /// `*=`
    MulAssign,
    /// `%=`
    ModAssign,
    /// `&=`
    AndAssign,
    /// `|=`
    OrAssign,
    /// `^=`
    XorAssign,
    /// `+`
    Add,
    /// `-`
    Sub,
    /// `*`
    Mul,
    /// `%`
    Mod,
    /// `&`
    And,
    /// `|`
    Or,
    /// `^`
    Xor,
    /// `<`
    Lt,
    /// `>`
    Gt,
    /// `=`
    Assign,
    /// `(`
    LeftParen,
    /// `)`
    RightParen,
    /// `[`
    LeftBracket,
    /// `]`
    RightBracket,
    /// `,`
    Comma,
    /// `:`
    Colon,
    /// `@`
    At,
}

/// Each mark with its spelling, longest first.
pub const MARKS: [(&[u8], Mark); 36] = [
    (b"**=", Mark::PowAssign),
    (b"//=", Mark::DivAssign),
    (b"<<=", Mark::ShlAssign),
    (b">>=", Mark::ShrAssign),
    (b"**", Mark::Pow),
    (b"//", Mark::Div),
    (b"<<", Mark::Shl),
    (b">>", Mark::Shr),
    (b"<=", Mark::Le),
    (b">=", Mark::Ge),
    (b"==", Mark::Eq),
    (b"!=", Mark::Ne),
    (b"+=", Mark::AddAssign),
    (b"-=", Mark::SubAssign),
    (b"*=", Mark::MulAssign),
    (b"%=", Mark::ModAssign),
    (b"&=", Mark::AndAssign),
    (b"|=", Mark::OrAssign),
    (b"^=", Mark::XorAssign),
    (b"+", Mark::Add),
    (b"-", Mark::Sub),
    (b"*", Mark::Mul),
    (b"%", Mark::Mod),
    (b"&", Mark::And),
    (b"|", Mark::Or),
    (b"^", Mark::Xor),
    (b"<", Mark::Lt),
    (b">", Mark::Gt),
    (b"=", Mark::Assign),
    (b"(", Mark::LeftParen),
    (b")", Mark::RightParen),
    (b"[", Mark::LeftBracket),
    (b"]", Mark::RightBracket),
    (b",", Mark::Comma),
    (b":", Mark::Colon),
    (b"@", Mark::At),
];

/// The longest mark at the front of the text, and its length.
pub fn front_mark(text: &[char]) -> Option<(usize, Mark)>
    ensures { result ≡ front_mark text.now }
{
    find(&MARKS, text)
}

fn find(mut table: &[(&[u8], Mark)], text: &[char]) -> Option<(usize, Mark)>
    ensures { result ≡ first_front (map (λ row. (row.0.now, row.1)) table.entry.now) text.now }
{
    while let [row, rest @ ..] = table {
        if begins(row.0, text) {
            return Some((row.0.len(), row.1));
        }
        table = rest;
    }
    None
}
