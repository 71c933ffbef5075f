//! What was put and taken through one pass.
use pyd_board::Ticket;
use std::collections::LinkedList;

/// What a pass has put and taken, and how many of the 128 parts of the right to know the whole it
/// has. No value of it is made.
pub struct Account {
    pub parts: u64,
    pub put: LinkedList<Ticket>,
    pub taken: LinkedList<Ticket>,
}
