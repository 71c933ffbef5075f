//! Places in the source.

ghost use Rattle.std.specs.Prelude.{◌≡◌, ◌+◌, ◌<◌, ◌≤◌, ◌^◌};
ghost use Rattle.pyd_lex.specs.Lines as spec;

/// An offset in bytes, and the line that it is in, counted from 1.
#[derive(Clone, Copy, Debug, PartialEq, Eq)]
pub struct Place {
    pub at: u32,
    pub line: u32,
}

impl Place {
    /// The place after a piece.
    pub fn after(self, piece: &[char]) -> Place
        requires at { self.at + spec.size piece.now < 2 ^ 32 }
        requires line { self.line + spec.ends piece.now < 2 ^ 32 }
        ensures { result ≡ spec.after self piece.now }
    {
        Place {
            at: self.at + size(piece),
            line: self.line + ends(piece),
        }
    }
}

/// The bytes of a piece.
fn size(mut piece: &[char]) -> u32
    requires { spec.size piece.now < 2 ^ 32 }
    ensures { result ≡ spec.size piece.entry.now }
{
    let mut n: u32 = 0;
    while let [c, rest @ ..] = piece {
        n += c.len_utf8() as u32;
        piece = rest;
    }
    n
}

/// The line ends in a piece.
fn ends(mut piece: &[char]) -> u32
    requires { spec.ends piece.now < 2 ^ 32 }
    ensures { result ≡ spec.ends piece.entry.now }
{
    let mut n: u32 = 0;
    while let [c, rest @ ..] = piece {
        if is_end(*c, rest) {
            n += 1;
        }
        piece = rest;
    }
    n
}

fn is_end(c: char, rest: &[char]) -> bool
    ensures { result ≡ spec.is_end c rest.now }
{
    match rest {
        ['\n', ..] => c == '\n',
        _ => c == '\n' || c == '\r',
    }
}
