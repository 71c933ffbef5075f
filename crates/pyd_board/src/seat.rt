//! Who acts on a board, and what it may take on.

/// A seat and its machine. Seat 0 is the driver. The seats of a machine's workers follow one
/// another, machine after machine: 1 + machine * workers + the worker's number.
#[derive(Clone, Copy, Debug, PartialEq, Eq)]
pub struct Who {
    pub seat: u32,
    pub machine: u32,
}

/// Leave to claim an attempt of a node, and the machine on which it was placed.
#[derive(Clone, Copy, Debug, PartialEq, Eq)]
pub struct Ticket {
    pub node: u64,
    pub attempt: u64,
    pub machine: u32,
}
