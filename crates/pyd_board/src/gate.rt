//! Gates, which stand round each job.

/// What a worker calls round each job, outside the lock.
pub trait Gate {
    /// The worker of this seat is about to run the node's job.
    fn before(&self, worker: u32, node: u64);

    /// The worker of this seat has run it.
    fn after(&self, worker: u32, node: u64);
}

/// Does nothing.
#[derive(Clone, Copy, Debug, PartialEq, Eq)]
pub struct OpenGate;

impl Gate for OpenGate {
    fn before(&self, _worker: u32, _node: u64) {}

    fn after(&self, _worker: u32, _node: u64) {}
}
