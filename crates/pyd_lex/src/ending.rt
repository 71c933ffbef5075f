//! How a scan ends: with all tokens, or at the first fault.

ghost use Rattle.std.specs.Prelude.{◌≡◌, OnOk, IfOk, IfErr};
ghost use Rattle.pyd_lex.specs.Lines.{fault_in};
ghost use Rattle.pyd_lex.specs.Machine.{unfinished};
ghost use Rattle.pyd_lex.specs.Scanner.{IsStopped, StopsBy, Puts, AreAll, IsClosed};

use crate::fault::{Flaw, LexFault, LexStop, Stop};
use crate::mode::Mode;
use crate::place::Place;
use crate::scanner::Scanner;
use crate::widths::empty;
use crate::{Token, TokenKind};

impl Scanner {
    /// Why there are no tokens, where the piece here isn't read.
    pub fn stopped(&mut self, stop: Stop, place: Place) -> LexStop
        ensures { StopsBy self.old stop place result }
    {
        match stop {
            Stop::Flaw(flaw) => self.refuse(flaw, place),
            Stop::NoMemory => LexStop::NoMemory,
        }
    }

    /// The first fault, where the piece here has this flaw.
    fn refuse(&mut self, flaw: Flaw, place: Place) -> LexStop
        ensures { IsStopped self.old flaw place result }
    {
        match self.mode {
            Mode::Indentation { width, tab } => match self.begin(width, tab, place) {
                Ok(()) => LexStop::Fault(fault(flaw, place.line)),
                Err(stop) => stop,
            },
            Mode::Inside { .. } => LexStop::Fault(fault(flaw, place.line)),
        }
    }

    /// All tokens, where the text ends here.
    pub fn finish(mut self, end: Place) -> Result<Vec<Token>, LexStop>
        ensures ok { IfOk result (λ tokens. AreAll self end tokens.items) }
        ensures err { IfErr result (λ stop. stop ≡ LexStop.NoMemory) }
    {
        self.end_line(end)?;
        self.close(end)?;
        Ok(self.tokens)
    }

    /// Ends a line that the text's end leaves unfinished.
    fn end_line(&mut self, end: Place) -> Result<(), LexStop>
        ensures puts { Puts self.old self.new (unfinished self.old.mode end) result }
        ensures widths { self.new.widths.items ≡ self.old.widths.items }
    {
        match self.mode {
            Mode::Indentation { .. } => Ok(()),
            Mode::Inside { depth, has_tokens } => {
                self.push_if(has_tokens && depth == 0, empty(TokenKind::Newline, end))
            }
        }
    }

    /// Closes each line that is begun, and ends the tokens.
    fn close(&mut self, end: Place) -> Result<(), LexStop>
        ensures ok { OnOk result (IsClosed self.old end self.new.tokens.items) }
        ensures err { IfErr result (λ stop. stop ≡ LexStop.NoMemory) }
    {
        while !self.widths.is_empty() {
            self.dedent(end)?;
        }
        self.push(empty(TokenKind::End, end))
    }
}

fn fault(flaw: Flaw, line: u32) -> LexFault
    ensures { result ≡ fault_in flaw line }
{
    match flaw {
        Flaw::BadChar => LexFault::BadChar(line),
        Flaw::BadName => LexFault::BadName(line),
        Flaw::BadNumber => LexFault::BadNumber(line),
        Flaw::WideNumber => LexFault::WideNumber(line),
        Flaw::BadString => LexFault::BadString(line),
    }
}
