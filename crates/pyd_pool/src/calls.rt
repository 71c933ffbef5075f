//! What a hand does at its places.
ghost use Rattle.std.specs.Prelude.{◌≡◌, ◌+◌, ◌<◌, ◌≤◌, ◌^◌, IfOk, MatchResult, MatchOption, length};
ghost use Rattle.pyd_pool.specs.Whole.{places, SamePlaces, Mails, Pushes, Puts, Takes, Keeps, SawNone};

use crate::hand::Hand;
use crate::looks::{pop_any, pop_at, put_at, steal_any};
use crate::reach::Reach;
use crate::rule::{Put, Took};
use pyd_board::Ticket;
use pyd_value::NoMemory;
use std::sync::Wait;

impl Reach {
    // The number of the machine's queue, or its own machine's where the pool has no such machine.
    fn queue_of(&self, machine: u32) -> usize
        ensures within { result < length self.now.queues.items }
        ensures there { machine < length self.now.queues.items → result ≡ machine }
        ensures home { length self.now.queues.items ≤ machine → result ≡ self.now.home }
    {
        let machine = machine as usize;
        if machine < self.queues.len() {
            machine
        } else {
            self.home
        }
    }

    // Into the machine's queue, or its own machine's where the pool has no such machine.
    pub(crate) fn mail<R: Wait>(
        &mut self,
        rt: &R,
        machine: u32,
        ticket: Ticket,
    ) -> Result<(), Ticket>
        ensures same { SamePlaces self.old self.new }
        ensures rule { MatchResult result (λ _. Puts self.old self.new ticket)
            (λ t. (t ≡ ticket) × Keeps self.old self.new) }
        ensures at { IfOk result (λ _. Mails self.old self.new machine ticket) }
    {
        let at = self.queue_of(machine);
        put_at(rt, &mut self.queues, at, ticket)
    }

    // On its own deque or, where that refuses the ticket, into its machine's queue.
    pub(crate) fn push<R: Wait>(&mut self, rt: &R, ticket: Ticket) -> Result<(), Ticket>
        ensures same { SamePlaces self.old self.new }
        ensures rule { MatchResult result (λ _. Puts self.old self.new ticket)
            (λ t. (t ≡ ticket) × Keeps self.old self.new) }
        ensures at { IfOk result (λ _. Pushes self.old self.new ticket) }
    {
        match self.own.push_as::<Put>(ticket) {
            Ok(()) => Ok(()),
            Err(ticket) => {
                let home = self.home;
                put_at(rt, &mut self.queues, home, ticket)
            }
        }
    }

    // A ticket of its own deque, its machine's queue, the other deques or the other queues.
    pub(crate) fn take<R: Wait>(&mut self, rt: &R) -> Option<Ticket>
        ensures same { SamePlaces self.old self.new }
        ensures rule { MatchOption result (Keeps self.old self.new × SawNone self.new)
            (Takes self.old self.new) }
    {
        if let Some(ticket) = self.own.pop_as::<Took>() {
            return Some(ticket);
        }
        let home = self.home;
        if let Some(ticket) = pop_at(rt, &mut self.queues, home) {
            return Some(ticket);
        }
        if let Some(ticket) = steal_any(rt, &mut self.deques) {
            return Some(ticket);
        }
        pop_any(rt, &mut self.queues)
    }
}

// Waits for ever where the count is at its end.
fn wait_at<R: Wait>(rt: &R, count: u64, end: u64)
    requires { count ≤ end }
    ensures { count < end }
{
    if count == end {
        for _ in rt.forever() {}
    }
}

impl Hand {
    /// Into the machine's queue, or its own machine's where the pool has no such machine.
    pub fn mail<R: Wait>(
        &mut self,
        rt: &R,
        machine: u32,
        ticket: Ticket,
    ) -> Result<(), (Ticket, NoMemory)>
        ensures same { places self.new.reach ≡ places self.old.reach }
        ensures rule { MatchResult result (λ _. Puts self.old.reach self.new.reach ticket)
            (λ e. (e.0 ≡ ticket) × Keeps self.old.reach self.new.reach) }
        ensures at { IfOk result (λ _. Mails self.old.reach self.new.reach machine ticket) }
    {
        wait_at(rt, self.put, 1 << 56);
        match self.reach.mail(rt, machine, ticket) {
            Ok(()) => {
                self.put += 1;
                Ok(())
            }
            Err(ticket) => Err((ticket, NoMemory)),
        }
    }

    /// On its own deque or, where that refuses the ticket, into its machine's queue.
    pub fn push<R: Wait>(&mut self, rt: &R, ticket: Ticket) -> Result<(), (Ticket, NoMemory)>
        ensures same { places self.new.reach ≡ places self.old.reach }
        ensures rule { MatchResult result (λ _. Puts self.old.reach self.new.reach ticket)
            (λ e. (e.0 ≡ ticket) × Keeps self.old.reach self.new.reach) }
        ensures at { IfOk result (λ _. Pushes self.old.reach self.new.reach ticket) }
    {
        wait_at(rt, self.put, 1 << 56);
        match self.reach.push(rt, ticket) {
            Ok(()) => {
                self.put += 1;
                Ok(())
            }
            Err(ticket) => Err((ticket, NoMemory)),
        }
    }

    /// A ticket of its own deque, its machine's queue, the other deques or the other queues.
    pub fn take<R: Wait>(&mut self, rt: &R) -> Option<Ticket>
        ensures same { places self.new.reach ≡ places self.old.reach }
        ensures rule { MatchOption result (Keeps self.old.reach self.new.reach × SawNone
            self.new.reach) (Takes self.old.reach self.new.reach) }
    {
        wait_at(rt, self.taken, 1 << 62);
        match self.reach.take(rt) {
            Some(ticket) => {
                self.taken += 1;
                Some(ticket)
            }
            None => None,
        }
    }
}
