//! What the pool itself keeps.
ghost use Rattle.crossbeam_queue.specs.SegTies.{IsSegPassOf};

use crate::account::Account;
use crate::places::{DequeStealer, Mailbox, OtherDeque, SharedQueue};
use crossbeam_queue::SegPass;
use pyd_board::Ticket;
use std::alloc::Global;
use std::sync::Arc;

/// A machine's queue, with the pass that made the hands' passes.
#[derive(Drop)]
pub struct QueueKeeper {
    pub(crate) mailbox: Arc<Mailbox>,
    pub(crate) pass: SegPass<Ticket, Account>,
    ghost tied: { IsSegPassOf mailbox.value.queue pass },
}

/// The deques' stealers tell which pool it is.
#[derive(Drop)]
pub struct Pool {
    pub(crate) alloc: Global,
    pub(crate) stealers: Vec<DequeStealer>,
    pub(crate) keepers: Vec<QueueKeeper>,
}

/// A hand's passes, without its own deque.
#[derive(Drop)]
pub struct Rest {
    pub(crate) deques: Vec<OtherDeque>,
    pub(crate) queues: Vec<SharedQueue>,
}
