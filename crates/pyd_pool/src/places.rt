//! A hand's places: the deques of stealers and the queues, each with the hand's pass.
ghost use Rattle.std.specs.Prelude.{◌≡◌, ◌<◌};
ghost use Rattle.crossbeam_queue.specs.SegTies.{IsSegPassOf};
ghost use Rattle.crossbeam_deque.specs.Handles.{IsPassOf, stealer_deque, stealer_flavor, view};

use crate::account::Account;
use crate::rule::Conserved;
use crossbeam_deque::{Pass, Stealer, Worker};
use crossbeam_queue::{RuledSegQueue, SegPass};
use pyd_board::Ticket;
use std::alloc::Global;
use std::sync::Arc;

pub type DequeOwner = Worker<Ticket, Global, Account, Conserved>;

pub type DequeStealer = Stealer<Ticket, Global, Account, Conserved>;

pub struct Mailbox {
    pub(crate) queue: RuledSegQueue<Ticket, Account, Conserved>,
}

impl Drop for Mailbox {
    fn drop(self) {
        let Self { queue } = self;
        queue.destroy();
    }
}

/// A deque from outside: any hand may take at its front.
#[derive(Drop)]
pub struct OtherDeque {
    pub(crate) stealer: DequeStealer,
    pub(crate) pass: Pass<Ticket, Account>,
    ghost tied: { IsPassOf (stealer_deque stealer) pass × (stealer_flavor stealer ≡ 0) },
    ghost part: { (view pass).parts ≡ 1 },
}

/// A machine's queue, as one hand sees it.
#[derive(Drop)]
pub struct SharedQueue {
    pub(crate) mailbox: Arc<Mailbox>,
    pub(crate) pass: SegPass<Ticket, Account>,
    ghost tied: { IsSegPassOf mailbox.value.queue pass },
    ghost part: { pass.me.view.client.parts ≡ 1 },
}
