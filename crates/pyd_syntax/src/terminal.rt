//! The terminals of the grammar: each kind of token counts as one.

ghost use Rattle.std.specs.Prelude.{◌≡◌, ◌<◌};
ghost use Rattle.pyd_syntax.specs.Terminals.{terminal, word_terminal, mark_terminal};

use pyd_lex::{Mark, TokenKind, Word};

/// A token that no production has, and the place behind the last token.
pub const OTHER: u8 = 0;
/// The end of the source.
pub const END: u8 = 1;

pub const NEWLINE: u8 = 2;

pub const INDENT: u8 = 3;

pub const DEDENT: u8 = 4;

pub const NAME: u8 = 5;

pub const INT: u8 = 6;

pub const STR: u8 = 7;
/// `True`, `False`, `None`.
pub const CONSTANT: u8 = 8;

pub const FROM: u8 = 9;

pub const IMPORT: u8 = 10;

pub const DEF: u8 = 11;

pub const IF: u8 = 12;

pub const ELIF: u8 = 13;

pub const ELSE: u8 = 14;

pub const WHILE: u8 = 15;

pub const FOR: u8 = 16;

pub const IN: u8 = 17;

pub const PASS: u8 = 18;

pub const BREAK: u8 = 19;

pub const CONTINUE: u8 = 20;

pub const RETURN: u8 = 21;

pub const ASSERT: u8 = 22;

pub const OR: u8 = 23;

pub const AND: u8 = 24;

pub const NOT: u8 = 25;
/// `(`.
pub const LEFT_PAREN: u8 = 26;
/// `)`.
pub const RIGHT_PAREN: u8 = 27;
/// `[`.
pub const LEFT_BRACKET: u8 = 28;
/// `]`.
pub const RIGHT_BRACKET: u8 = 29;
/// `,`.
pub const COMMA: u8 = 30;
/// `:`.
pub const COLON: u8 = 31;
/// `@`.
pub const AT: u8 = 32;
/// `=`.
pub const ASSIGN: u8 = 33;
/// `+=` `-=` `*=` `//=` `%=` `**=` `<<=` `>>=` `&=` `|=` `^=`.
pub const AUG: u8 = 34;
/// `==` `!=` `<` `<=` `>` `>=`.
pub const CMP: u8 = 35;
/// `|`.
pub const BAR: u8 = 36;
/// `^`.
pub const CARET: u8 = 37;
/// `&`.
pub const AMPERSAND: u8 = 38;
/// `<<` `>>`.
pub const SHIFT: u8 = 39;
/// `+` `-`.
pub const SIGN: u8 = 40;
/// `*` `//` `%`.
pub const TIMES: u8 = 41;
/// `**`.
pub const POWER: u8 = 42;

/// How many terminals there are.
pub const TERMINALS: u8 = 43;

/// The terminal that a token of this kind counts as.
pub(crate) fn terminal(kind: TokenKind) -> u8
    ensures value { result ≡ terminal kind }
    ensures within { result < TERMINALS }
{
    match kind {
        TokenKind::Name => NAME,
        TokenKind::Int(_) => INT,
        TokenKind::Str => STR,
        TokenKind::Word(word) => word_terminal(word),
        TokenKind::Mark(mark) => mark_terminal(mark),
        TokenKind::Newline => NEWLINE,
        TokenKind::Indent => INDENT,
        TokenKind::Dedent => DEDENT,
        TokenKind::End => END,
    }
}

/// The terminal of a keyword.
fn word_terminal(word: Word) -> u8
    ensures value { result ≡ word_terminal word }
    ensures within { result < TERMINALS }
{
    match word {
        Word::False => CONSTANT,
        Word::None => CONSTANT,
        Word::True => CONSTANT,
        Word::And => AND,
        Word::As => OTHER,
        Word::Assert => ASSERT,
        Word::Async => OTHER,
        Word::Await => OTHER,
        Word::Break => BREAK,
        Word::Class => OTHER,
        Word::Continue => CONTINUE,
        Word::Def => DEF,
        Word::Del => OTHER,
        Word::Elif => ELIF,
        Word::Else => ELSE,
        Word::Except => OTHER,
        Word::Finally => OTHER,
        Word::For => FOR,
        Word::From => FROM,
        Word::Global => OTHER,
        Word::If => IF,
        Word::Import => IMPORT,
        Word::In => IN,
        Word::Is => OTHER,
        Word::Lambda => OTHER,
        Word::Nonlocal => OTHER,
        Word::Not => NOT,
        Word::Or => OR,
        Word::Pass => PASS,
        Word::Raise => OTHER,
        Word::Return => RETURN,
        Word::Try => OTHER,
        Word::While => WHILE,
        Word::With => OTHER,
        Word::Yield => OTHER,
    }
}

/// The terminal of a mark.
fn mark_terminal(mark: Mark) -> u8
    ensures value { result ≡ mark_terminal mark }
    ensures within { result < TERMINALS }
{
    match mark {
        Mark::PowAssign => AUG,
        Mark::DivAssign => AUG,
        Mark::ShlAssign => AUG,
        Mark::ShrAssign => AUG,
        Mark::Pow => POWER,
        Mark::Div => TIMES,
        Mark::Shl => SHIFT,
        Mark::Shr => SHIFT,
        Mark::Le => CMP,
        Mark::Ge => CMP,
        Mark::Eq => CMP,
        Mark::Ne => CMP,
        Mark::AddAssign => AUG,
        Mark::SubAssign => AUG,
        Mark::MulAssign => AUG,
        Mark::ModAssign => AUG,
        Mark::AndAssign => AUG,
        Mark::OrAssign => AUG,
        Mark::XorAssign => AUG,
        Mark::Add => SIGN,
        Mark::Sub => SIGN,
        Mark::Mul => TIMES,
        Mark::Mod => TIMES,
        Mark::And => AMPERSAND,
        Mark::Or => BAR,
        Mark::Xor => CARET,
        Mark::Lt => CMP,
        Mark::Gt => CMP,
        Mark::Assign => ASSIGN,
        Mark::LeftParen => LEFT_PAREN,
        Mark::RightParen => RIGHT_PAREN,
        Mark::LeftBracket => LEFT_BRACKET,
        Mark::RightBracket => RIGHT_BRACKET,
        Mark::Comma => COMMA,
        Mark::Colon => COLON,
        Mark::At => AT,
    }
}
