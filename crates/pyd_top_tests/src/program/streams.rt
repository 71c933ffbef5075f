//! Runs whose streams fail at each call in turn.

use pyd_top::Status;

/// A stream of a run.
#[derive(Clone, Copy)]
pub(crate) enum Stream {
    Source,
    Out,
    Err,
}

/// A run of which one stream fails.
pub(crate) struct Failing {
    pub(crate) word: &'static str,
    /// With ¶ for a line end.
    pub(crate) source: &'static str,
    pub(crate) stream: Stream,
    /// How many bytes are moved together: a call moves a step of them, or the rest. The end of a
    /// source counts as one byte.
    pub(crate) pieces: &'static [usize],
    /// How it ends where nothing fails, and what is on the two sinks then.
    pub(crate) status: Status,
    pub(crate) output: &'static str,
    pub(crate) error: &'static str,
}

/// A script with output, whose exception ends it.
const SHOUT: &str =
    "from pydron import functional¶¶@functional¶def g(x):¶    return x + 1¶¶def shout(a):¶    print(\"one\", a)¶    print(\"two\", a)¶    return a // 0¶¶print(g(1))¶shout(g(2))¶print(g(3))¶";

pub(crate) const FAILING: &[Failing] = &[
    Failing {
        word: "run",
        source: "print(1 + 2)",
        stream: Stream::Source,
        pieces: &[12, 1],
        status: Status::Done,
        output: "3\n",
        error: "",
    },
    Failing {
        word: "check",
        source: "print(1 + 2)",
        stream: Stream::Source,
        pieces: &[12, 1],
        status: Status::Done,
        output: "ok: 0 functions, 0 constants\n",
        error: "",
    },
    Failing {
        word: "graph",
        source: "print(1 + 2)",
        stream: Stream::Source,
        pieces: &[12, 1],
        status: Status::Done,
        output: "0 1 Add 1 2\n1 1 Print #0.0\n",
        error: "",
    },
    Failing {
        word: "run",
        source: "print(12345)",
        stream: Stream::Out,
        pieces: &[6],
        status: Status::Done,
        output: "12345\n",
        error: "",
    },
    Failing {
        word: "run",
        source: SHOUT,
        stream: Stream::Out,
        pieces: &[14],
        status: Status::Raised,
        output: "2\none 3\ntwo 3\n",
        error: "ZeroDivisionError: line 10\n",
    },
    Failing {
        word: "check",
        source: "A = 1",
        stream: Stream::Out,
        pieces: &[4, 1, 12, 1, 11],
        status: Status::Done,
        output: "ok: 0 functions, 1 constants\n",
        error: "",
    },
    Failing {
        word: "graph",
        source: "print(1 + 2)",
        stream: Stream::Out,
        pieces: &[27],
        status: Status::Done,
        output: "0 1 Add 1 2\n1 1 Print #0.0\n",
        error: "",
    },
    Failing {
        word: "run",
        source: SHOUT,
        stream: Stream::Err,
        pieces: &[17, 7, 2, 1],
        status: Status::Raised,
        output: "2\none 3\ntwo 3\n",
        error: "ZeroDivisionError: line 10\n",
    },
    Failing {
        word: "run",
        source: "print(1¶",
        stream: Stream::Err,
        pieces: &[14, 7, 1, 1],
        status: Status::Refused,
        output: "",
        error: "REFUSED Syntax: line 2\n",
    },
    Failing {
        word: "check",
        source: "x = len",
        stream: Stream::Err,
        pieces: &[21, 7, 1, 1],
        status: Status::Refused,
        output: "",
        error: "REFUSED FunctionValue: line 1\n",
    },
];
