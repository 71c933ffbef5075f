//! What a sink tells.
use pyd_value::List;

/// What a sink tells, as contracts see it. No value of it is made.
pub struct Told {
    /// The bytes that it holds, where it tells them.
    pub held: Option<List<u8>>,
    /// How many bytes more it surely takes, where it tells that.
    pub room: Option<u64>,
    /// Whether it never fails.
    pub sure: bool,
    /// How often a call has failed.
    pub faults: u64,
}
