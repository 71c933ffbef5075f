//! The keywords.

ghost use Rattle.std.specs.Prelude.{◌≡◌, map};
ghost use Rattle.pyd_lex.specs.Words.{first_same, keyword};

use crate::run::same;

/// A keyword (Python Language Reference, section 2.3.1, "Keywords").
#[derive(Clone, Copy, Debug, PartialEq, Eq)]
pub enum Word {
    False,
    None,
    True,
    And,
    As,
    Assert,
    Async,
    Await,
    Break,
    Class,
    Continue,
    Def,
    Del,
    Elif,
    Else,
    Except,
    Finally,
    For,
    From,
    Global,
    If,
    Import,
    In,
    Is,
    Lambda,
    Nonlocal,
    Not,
    Or,
    Pass,
    Raise,
    Return,
    Try,
    While,
    With,
    Yield,
}

/// Each keyword with its spelling.
pub const WORDS: [(&[u8], Word); 35] = [
    (b"False", Word::False),
    (b"None", Word::None),
    (b"True", Word::True),
    (b"and", Word::And),
    (b"as", Word::As),
    (b"assert", Word::Assert),
    (b"async", Word::Async),
    (b"await", Word::Await),
    (b"break", Word::Break),
    (b"class", Word::Class),
    (b"continue", Word::Continue),
    (b"def", Word::Def),
    (b"del", Word::Del),
    (b"elif", Word::Elif),
    (b"else", Word::Else),
    (b"except", Word::Except),
    (b"finally", Word::Finally),
    (b"for", Word::For),
    (b"from", Word::From),
    (b"global", Word::Global),
    (b"if", Word::If),
    (b"import", Word::Import),
    (b"in", Word::In),
    (b"is", Word::Is),
    (b"lambda", Word::Lambda),
    (b"nonlocal", Word::Nonlocal),
    (b"not", Word::Not),
    (b"or", Word::Or),
    (b"pass", Word::Pass),
    (b"raise", Word::Raise),
    (b"return", Word::Return),
    (b"try", Word::Try),
    (b"while", Word::While),
    (b"with", Word::With),
    (b"yield", Word::Yield),
];

/// The keyword that is spelled so.
pub fn keyword(text: &[char]) -> Option<Word>
    ensures { result ≡ keyword text.now }
{
    find(&WORDS, text)
}

fn find(mut table: &[(&[u8], Word)], text: &[char]) -> Option<Word>
    ensures { result ≡ first_same (map (λ row. (row.0.now, row.1)) table.entry.now) text.now }
{
    while let [row, rest @ ..] = table {
        if same(row.0, text) {
            return Some(row.1);
        }
        table = rest;
    }
    None
}
