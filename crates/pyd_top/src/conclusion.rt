//! Why a run ends as it does.
ghost use Rattle.std.specs.Prelude.{◌≡◌};
ghost use Rattle.pyd_top.specs.Refusals as refusals;
ghost use Rattle.pyd_top.specs.Running as running;
ghost use Rattle.pyd_top.specs.Statuses.{status_of};

use crate::source_stop::SourceStop;
use crate::status::Status;
use pyd_grammar::ParseFault;
use pyd_lex::LexFault;
use pyd_scope::Refusal;
use pyd_value::{End, Kind, Limit};

/// Why a run ends, with the line, counted from 1, where there is one.
#[derive(Clone, Copy, Debug, PartialEq, Eq)]
pub enum Conclusion {
    /// The script ran to its end, or the mode's text was put.
    Done,
    /// An exception ended it.
    Raised(Kind, u32),
    /// A limit fault ended it.
    Limit(Limit, u32),
    /// The words aren't those of a command.
    Words,
    /// The source is longer than sources may be.
    TooLong,
    /// It has no tokens.
    Lex(LexFault),
    /// Its tokens are read as no file.
    Parse(ParseFault),
    /// Its file breaks a rule of scope.
    Scope(Refusal),
    ReadFault,
    SinkFault,
    NoMemory,
}

impl Conclusion {
    pub fn status(self) -> Status
        ensures { result ≡ status_of self }
    {
        match self {
            Conclusion::Done => Status::Done,
            Conclusion::Raised(..) => Status::Raised,
            Conclusion::Limit(..) => Status::Limit,
            Conclusion::Words => Status::Words,
            Conclusion::TooLong
            | Conclusion::Lex(_)
            | Conclusion::Parse(_)
            | Conclusion::Scope(_) => Status::Refused,
            Conclusion::ReadFault => Status::ReadFault,
            Conclusion::SinkFault => Status::SinkFault,
            Conclusion::NoMemory => Status::NoMemory,
        }
    }
}

/// What the refusal of a source is called at the end of a call.
pub(crate) fn stopped_by(stop: SourceStop) -> Conclusion
    ensures { result ≡ refusals.stopped_by stop }
{
    match stop {
        SourceStop::TooLong => Conclusion::TooLong,
        SourceStop::Lex(fault) => Conclusion::Lex(fault),
        SourceStop::Parse(fault) => Conclusion::Parse(fault),
        SourceStop::Scope(refusal) => Conclusion::Scope(refusal),
        SourceStop::NoMemory => Conclusion::NoMemory,
    }
}

/// What the end of a script is called at the end of a call.
pub(crate) fn named_end(end: End) -> Conclusion
    ensures { result ≡ running.named_end end }
{
    match end {
        End::Finished => Conclusion::Done,
        End::Raised(kind, line) => Conclusion::Raised(kind, line),
        End::Limit(limit, line) => Conclusion::Limit(limit, line),
    }
}
