//! How a run ends.
ghost use Rattle.std.specs.Prelude.{◌≡◌};
ghost use Rattle.pyd_top.specs.Statuses as spec;

/// The status of a run.
#[derive(Clone, Copy, Debug, PartialEq, Eq)]
pub enum Status {
    Done,
    Raised,
    Words,
    Refused,
    Limit,
    ReadFault,
    SinkFault,
    NoMemory,
    No,
}

impl Status {
    /// The number with which the process ends (docs/STATUS.md).
    pub fn code(self) -> u8
        ensures { result ≡ spec.code self }
    {
        match self {
            Status::Done => 0,
            Status::Raised => 1,
            Status::Words => 2,
            Status::Refused => 3,
            Status::Limit => 4,
            Status::ReadFault => 5,
            Status::SinkFault => 6,
            Status::NoMemory => 7,
            Status::No => 8,
        }
    }
}

/// The status, and the sink for output.
#[derive(Drop)]
pub struct Ended<K> {
    pub status: Status,
    pub out: K,
}
