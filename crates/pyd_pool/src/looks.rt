//! What a hand does at each place.
ghost use Rattle.std.specs.Prelude.{◌≡◌, ◌+◌, ◌<◌, ℕ, ◌∷◌, [], ◌++◌, MatchResult, MatchOption, IfOk, map, length};
ghost use Rattle.crossbeam_queue.specs.SegTies.{IsSegPassOf, SegId};
ghost use Rattle.crossbeam_deque.specs.Handles.{IsPassOf, stealer_deque, stealer_flavor, worker_flavor, worker_deque, worker_view, worker_port, view};
ghost use Rattle.pyd_pool.specs.Accounts.{account, weigh, total, Balanced, WasEmpty};
ghost use Rattle.pyd_pool.specs.Hands.{deque_account, queue_account, deque_id, queue_id, puts, takes, PutAt, AllWereEmpty};

use crate::places::{OtherDeque, SharedQueue};
use crate::rule::{Put, Took};
use crossbeam_deque::Steal;
use pyd_board::Ticket;
use std::sync::Wait;

impl OtherDeque {
    pub(crate) fn steal<R: Wait>(&mut self, rt: &R) -> Option<Ticket>
        ensures same { (stealer_deque self.new.stealer ≡ stealer_deque self.old.stealer) ×
            (self.new.pass.id ≡ self.old.pass.id) }
        ensures rule { MatchOption result ((view self.new.pass ≡ view self.old.pass) × WasEmpty
            (view self.old.pass)) (λ t. view self.new.pass ≡ account (view self.old.pass).parts
            (view self.old.pass).put ((view self.old.pass).taken ++ t ∷ [])) }
    {
        for _ in rt.forever() {
            match self.stealer.steal_as::<Took>(&mut self.pass) {
                Steal::Success(ticket) => return Some(ticket),
                Steal::Empty => return None,
                Steal::Retry => {}
            }
        }
        unreachable!()
    }
}

impl SharedQueue {
    pub(crate) fn put<R: Wait>(&mut self, rt: &R, ticket: Ticket) -> Result<(), Ticket>
        ensures same { (self.new.mailbox.value.queue ≡ self.old.mailbox.value.queue) ×
            (self.new.pass.id ≡ self.old.pass.id) }
        ensures rule { MatchResult result (λ _. self.new.pass.me.view.client ≡ account
            self.old.pass.me.view.client.parts (self.old.pass.me.view.client.put ++ ticket ∷ [])
            self.old.pass.me.view.client.taken) (λ t. (t ≡ ticket) ×
            (self.new.pass.me.view.client ≡ self.old.pass.me.view.client)) }
    {
        self.mailbox
            .queue
            .push_as::<Put, R>(rt, &mut self.pass, ticket)
    }

    pub(crate) fn pop<R: Wait>(&mut self, rt: &R) -> Option<Ticket>
        ensures same { (self.new.mailbox.value.queue ≡ self.old.mailbox.value.queue) ×
            (self.new.pass.id ≡ self.old.pass.id) }
        ensures rule { MatchOption result ((self.new.pass.me.view.client ≡
            self.old.pass.me.view.client) × WasEmpty self.old.pass.me.view.client)
            (λ t. self.new.pass.me.view.client ≡ account self.old.pass.me.view.client.parts
            self.old.pass.me.view.client.put (self.old.pass.me.view.client.taken ++ t ∷ [])) }
    {
        self.mailbox.queue.pop_as::<Took, R>(rt, &mut self.pass)
    }
}

// Takes at the front of the first deque that has a ticket.
pub(crate) fn steal_any<R: Wait>(rt: &R, deques: &mut Vec<OtherDeque>) -> Option<Ticket>
    ensures same { map deque_id deques.new.items ≡ map deque_id deques.old.items }
    ensures put { (h : Ticket → ℕ) → puts deque_account h deques.new.items ≡ puts deque_account h
        deques.old.items }
    ensures rule { MatchOption result (((h : Ticket → ℕ) → takes deque_account h deques.new.items ≡
        takes deque_account h deques.old.items) × AllWereEmpty deque_account deques.new.items)
        (λ t. (h : Ticket → ℕ) → takes deque_account h deques.new.items ≡ takes deque_account h
        deques.old.items + h t) }
{
    for k in 0..deques.len() {
        match deques[k].steal(rt) {
            Some(ticket) => return Some(ticket),
            None => {}
        }
    }
    None
}

// The same of the queues.
pub(crate) fn pop_any<R: Wait>(rt: &R, queues: &mut Vec<SharedQueue>) -> Option<Ticket>
    ensures same { map queue_id queues.new.items ≡ map queue_id queues.old.items }
    ensures put { (h : Ticket → ℕ) → puts queue_account h queues.new.items ≡ puts queue_account h
        queues.old.items }
    ensures rule { MatchOption result (((h : Ticket → ℕ) → takes queue_account h queues.new.items ≡
        takes queue_account h queues.old.items) × AllWereEmpty queue_account queues.new.items)
        (λ t. (h : Ticket → ℕ) → takes queue_account h queues.new.items ≡ takes queue_account h
        queues.old.items + h t) }
{
    for k in 0..queues.len() {
        match queues[k].pop(rt) {
            Some(ticket) => return Some(ticket),
            None => {}
        }
    }
    None
}

// Puts at the back of one queue.
pub(crate) fn put_at<R: Wait>(
    rt: &R,
    queues: &mut Vec<SharedQueue>,
    at: usize,
    ticket: Ticket,
) -> Result<(), Ticket>
    requires { at < length queues.old.items }
    ensures same { map queue_id queues.new.items ≡ map queue_id queues.old.items }
    ensures taken { (h : Ticket → ℕ) → takes queue_account h queues.new.items ≡ takes queue_account
        h queues.old.items }
    ensures rule { MatchResult result (λ _. (h : Ticket → ℕ) → puts queue_account h
        queues.new.items ≡ puts queue_account h queues.old.items + h ticket)
        (λ t. (t ≡ ticket) × ((h : Ticket → ℕ) → puts queue_account h queues.new.items ≡ puts
        queue_account h queues.old.items)) }
    ensures at { IfOk result (λ _. PutAt at ticket queues.old.items queues.new.items) }
{
    match queues[at].put(rt, ticket) {
        Ok(()) => Ok(()),
        Err(ticket) => Err(ticket),
    }
}

// Takes at the front of one queue.
pub(crate) fn pop_at<R: Wait>(rt: &R, queues: &mut Vec<SharedQueue>, at: usize) -> Option<Ticket>
    requires { at < length queues.old.items }
    ensures same { map queue_id queues.new.items ≡ map queue_id queues.old.items }
    ensures put { (h : Ticket → ℕ) → puts queue_account h queues.new.items ≡ puts queue_account h
        queues.old.items }
    ensures rule { MatchOption result ((h : Ticket → ℕ) → takes queue_account h queues.new.items ≡
        takes queue_account h queues.old.items) (λ t. (h : Ticket → ℕ) → takes queue_account h
        queues.new.items ≡ takes queue_account h queues.old.items + h t) }
{
    match queues[at].pop(rt) {
        Some(ticket) => Some(ticket),
        None => None,
    }
}
