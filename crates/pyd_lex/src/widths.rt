//! The widths of the lines that are begun.

ghost use Rattle.std.specs.Prelude.{◌≡◌, ◌<◌, ◌∷◌, [], ◌++◌, length, OnOk};
ghost use Rattle.pyd_lex.specs.Lines.{empty_at, lowered, top};
ghost use Rattle.pyd_lex.specs.Machine.{started};
ghost use Rattle.pyd_lex.specs.Scanner.{IsBegun, Puts, begun};

use crate::fault::{LexFault, LexStop};
use crate::place::Place;
use crate::scanner::Scanner;
use crate::{Token, TokenKind};

impl Scanner {
    /// Begins a line whose first token is here.
    pub fn begin(&mut self, width: u32, tab: bool, place: Place) -> Result<(), LexStop>
        ensures { IsBegun (started tab width place (begun self.old)) self.old self.new result }
    {
        if tab {
            return Err(LexStop::Fault(LexFault::Tab(place.line)));
        }
        if self.top() < width {
            return self.indent(width, place);
        }
        self.lower(width, place)
    }

    fn top(&self) -> u32
        ensures { result ≡ top (begun self.now) }
    {
        let widths = self.widths.as_slice();
        let count = widths.len();
        if count == 0 { 0 } else { widths[count - 1] }
    }

    fn indent(&mut self, width: u32, place: Place) -> Result<(), LexStop>
        ensures puts { Puts self.old self.new (empty_at TokenKind.Indent place ∷ []) result }
        ensures widths { OnOk result (self.new.widths.items ≡ self.old.widths.items ++ width ∷ []) }
    {
        if self.widths.push(width).is_err() {
            return Err(LexStop::NoMemory);
        }
        self.push(empty(TokenKind::Indent, place))
    }

    /// Closes the innermost line that is begun.
    pub fn dedent(&mut self, place: Place) -> Result<(), LexStop>
        requires { 0 < length self.old.widths.items }
        ensures puts { Puts self.old self.new (empty_at TokenKind.Dedent place ∷ []) result }
        ensures widths { OnOk result (begun self.old ≡ top (begun self.old) ∷ begun self.new) }
        ensures less { length self.new.widths.items < length self.old.widths.items }
    {
        self.widths.pop();
        self.push(empty(TokenKind::Dedent, place))
    }

    /// Closes the lines that are wider than this.
    fn lower(&mut self, width: u32, place: Place) -> Result<(), LexStop>
        ensures { IsBegun (lowered width place (begun self.old)) self.old self.new result }
    {
        while width < self.top() {
            match self.dedent(place) {
                Ok(()) => {}
                Err(stop) => return Err(stop),
            }
        }
        if width == self.top() {
            return Ok(());
        }
        Err(LexStop::Fault(LexFault::BadDedent(place.line)))
    }
}

/// A token that nothing spells.
pub fn empty(kind: TokenKind, place: Place) -> Token
    ensures { result ≡ empty_at kind place }
{
    Token {
        kind,
        from: place.at,
        to: place.at,
        line: place.line,
    }
}
