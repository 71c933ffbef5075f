//! Strings: where they end, and what is wrong with them.

ghost use Rattle.std.specs.Prelude.{◌≡◌, ℕ, ◌<◌, IfOk, IfErr, None, Some, take, length};
ghost use Rattle.pyd_lex.specs.Words.{begins};
ghost use Rattle.pyd_lex.specs.Strings as spec;
ghost use Rattle.pyd_lex.specs.Quoted.{Ends, IsBroken, Steps, spelling, IsString, IsFlawedString};

use crate::fault::Flaw;

/// What the character at the front is, inside quotes.
#[derive(Clone, Copy, Debug, PartialEq, Eq)]
pub enum Part {
    Close,
    Nul,
    Backslash,
    /// A line end that these quotes don't allow.
    BareBreak,
    Plain,
}

/// What the front of a text does to the string that it stands in.
#[derive(Clone, Copy, Debug)]
pub enum Step {
    End,
    Broken(Flaw),
    /// It goes on behind so many characters.
    Skip(usize),
}

/// The quotes that a string begins and ends with: one of a kind, or three.
#[derive(Clone, Copy, Debug)]
pub struct Quotes {
    pub quote: char,
    pub triple: bool,
}

/// Whether two more of the quote follow the first.
fn is_triple(quote: char, tail: &[char]) -> bool
    ensures { result ≡ spec.is_triple quote tail.now }
{
    match tail {
        [b, c, ..] => *b == quote && *c == quote,
        _ => false,
    }
}

/// The quotes at the front of a text, by its first character and the others.
pub fn opening(quote: char, tail: &[char]) -> Quotes
    ensures { result ≡ record { quote = quote; triple = spec.is_triple quote tail.now } }
{
    Quotes {
        quote,
        triple: is_triple(quote, tail),
    }
}

impl Quotes {
    /// The quotes after the first at the front of a text.
    pub fn more(self) -> usize
        ensures value { result ≡ spec.more self.triple }
    {
        if self.triple { 2 } else { 0 }
    }

    fn close(self, text: &[char]) -> bool
        ensures { result ≡ begins (spelling self) text.now }
    {
        match text {
            [a, tail @ ..] => *a == self.quote && (!self.triple || is_triple(self.quote, tail)),
            _ => false,
        }
    }

    #[tactic(auto, unfolding(crate::specs::Strings::part))]
    pub fn part(self, text: &[char]) -> Part
        ensures { result ≡ spec.part (spelling self) text.now }
    {
        match text {
            [c, ..] => self.part_at(*c, text),
            _ => Part::Plain,
        }
    }

    fn step(self, text: &[char]) -> Step
        requires { 0 < length text.now }
        ensures { Steps (spelling self) text.now result }
    {
        match self.part(text) {
            Part::Close => Step::End,
            Part::Nul => Step::Broken(Flaw::BadChar),
            Part::BareBreak => Step::Broken(Flaw::BadString),
            Part::Plain => Step::Skip(1),
            Part::Backslash => self.escape_step(text),
        }
    }

    fn escape_step(self, text: &[char]) -> Step
        requires room { 0 < length text.now }
        requires part { spec.part (spelling self) text.now ≡ Part.Backslash }
        ensures { Steps (spelling self) text.now result }
    {
        if text.len() == 1 {
            return Step::Broken(Flaw::BadString);
        }
        match escape(text[1]) {
            Some(_) => Step::Skip(2),
            None => Step::Broken(Flaw::BadString),
        }
    }

    fn part_at(self, c: char, text: &[char]) -> Part
        ensures { result ≡ spec.part_at (spelling self) c text.now }
    {
        if self.close(text) {
            Part::Close
        } else if c == '\0' {
            Part::Nul
        } else if c == '\\' {
            Part::Backslash
        } else if (c == '\n' || c == '\r') && !self.triple {
            Part::BareBreak
        } else {
            Part::Plain
        }
    }
}

/// The character that a letter stands for after a backslash.
pub fn escape(c: char) -> Option<char>
    ensures { result ≡ spec.escape c }
{
    match c {
        '\\' | '\'' | '"' => Some(c),
        'n' => Some('\n'),
        't' => Some('\t'),
        'r' => Some('\r'),
        _ => None,
    }
}

/// The length of a string after its first quote.
pub fn string(quote: char, tail: &[char]) -> Result<usize, Flaw>
    ensures ok { IfOk result (IsString quote tail.now None) }
    ensures err { IfErr result (IsFlawedString quote tail.now) }
{
    let quotes = opening(quote, tail);
    let (_, text) = tail.split_at(quotes.more());
    match body(quotes, text) {
        Ok(n) => Ok(quotes.more() + n),
        Err(flaw) => Err(flaw),
    }
}

/// The length of a string after its opening quotes.
fn body(quotes: Quotes, text: &[char]) -> Result<usize, Flaw>
    ensures ok { IfOk result (λ n. Ends (spelling quotes) text.now n None) }
    ensures err { IfErr result (IsBroken (spelling quotes) text.now) }
{
    let mut n = 0;
    let mut rest = text;
    while !rest.is_empty() {
        match quotes.step(rest) {
            Step::End => return Ok(n + quotes.more() + 1),
            Step::Broken(flaw) => return Err(flaw),
            Step::Skip(k) => {
                let (_, tail) = rest.split_at(k);
                rest = tail;
                n += k;
            }
        }
    }
    Err(Flaw::BadString)
}
