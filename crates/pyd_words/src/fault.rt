//! Why words ask for nothing.
ghost use Rattle.std.specs.Prelude.{◌≡◌};
ghost use Rattle.pyd_words.specs.declared.fault.WordsStop.TheVariants.{Fault, NoMemory as OutOfMemory};

use pyd_value::NoMemory;
use std::alloc::{AllocError, AllocFailed};
use thiserror::Error;

/// The first fault in the words, in the order of these variants (docs/FORMATS.md, "Words").
#[derive(Clone, Copy, Debug, PartialEq, Eq, Error)]
pub enum WordsFault {
    #[error("the words are no command line, or ask for help")]
    Line,
    #[error("a mode that isn't there")]
    BadMode,
    #[error("a value that isn't 1 to 20 digits, or no way to place nodes")]
    BadNumber,
    #[error("a number outside the limits of its option")]
    OutOfRange,
    #[error("a loss script that isn't well formed")]
    BadScript,
    #[error("a loss of a machine that isn't there")]
    NoMachine,
    #[error("a machine that is lost twice")]
    TwiceLost,
    #[error("a loss of all machines")]
    AllLost,
    #[error("a demo without a number, or a number without a demo")]
    NumberWhere,
}

/// Why `read_words` has no plan to give.
#[derive(Clone, Copy, Debug, PartialEq, Eq)]
pub enum WordsStop {
    Fault(WordsFault),
    NoMemory,
}

impl From<WordsFault> for WordsStop {
    ghost from_gives = { λ fault stop. stop ≡ Fault fault };

    fn from(fault: WordsFault) -> Self {
        WordsStop::Fault(fault)
    }
}

impl From<NoMemory> for WordsStop {
    ghost from_gives = { λ _ stop. stop ≡ OutOfMemory };

    fn from(_: NoMemory) -> Self {
        WordsStop::NoMemory
    }
}

impl From<AllocError> for WordsStop {
    ghost from_gives = { λ _ stop. stop ≡ OutOfMemory };

    fn from(_: AllocError) -> Self {
        WordsStop::NoMemory
    }
}

impl<T: Drop> From<AllocFailed<T>> for WordsStop {
    ghost from_gives = { λ _ stop. stop ≡ OutOfMemory };

    fn from(_: AllocFailed<T>) -> Self {
        WordsStop::NoMemory
    }
}
