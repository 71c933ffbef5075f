//! What is left at the end: all passes join, and all that the places hold is taken.
ghost use Rattle.std.specs.Prelude.{◌≡◌, ℕ, ◌+◌, ◌-◌, ◌<◌, ◌≤◌, [], ◌∷◌, ◌++◌, map, length, vec_len, IfOk, IfErr, MatchResult, MatchOption};
ghost use Rattle.crossbeam_queue.specs.SegTies.{IsSegPassOf};
ghost use Rattle.crossbeam_deque.specs.Handles.{worker_flavor, worker_view, worker_deque, stealer_deque, stealer_flavor};
ghost use Rattle.pyd_pool.specs.Accounts.{account, weigh};
ghost use Rattle.pyd_pool.specs.Hands.{deque_account, queue_account, deque_id, queue_id, puts, takes};
ghost use Rattle.pyd_pool.specs.Ends.{owner_account, keeper_account, keeper_queue, HaveParts, Every, AllFifo, AllRests, owner_of, rest_of, hand_deque, rests_put, rests_taken, all_put, all_taken, AllHands};

use crate::hand::Hand;
use crate::places::{DequeOwner, DequeStealer, Mailbox, OtherDeque, SharedQueue};
use crate::pool::{Pool, QueueKeeper, Rest};
use crate::reach::Reach;
use crate::rule::{Conserved, Parts, Took};
use crossbeam_queue::RuledSegQueue;
use pyd_board::Ticket;
use pyd_value::NoMemory;
use std::alloc::{AllocError, Global};
use std::sync::{Arc, Wait};

impl Pool {
    /// What is left. These are all hands of the pool.
    pub fn close<R: Wait>(
        self,
        rt: &R,
        hands: Vec<Hand>,
    ) -> Result<Vec<Ticket>, (Pool, Vec<Hand>, NoMemory)>
        requires { AllHands self hands.items }
        ensures kept { IfErr result (λ e. (e.0 ≡ self) × (e.1 ≡ hands)) }
        ensures whole { IfOk result (λ left. (h : Ticket → ℕ) → all_put h hands.items ≡ all_taken h
            hands.items + weigh h left.items) }
    {
        let Ok(mut left) = Vec::with_capacity(self.alloc, left_count(&hands) as usize) else {
            return Err((self, hands, NoMemory));
        };
        let Ok(mut owners) = Vec::with_capacity(self.alloc, hands.len()) else {
            return Err((self, hands, NoMemory));
        };
        let Ok(mut rests) = Vec::with_capacity(self.alloc, hands.len()) else {
            return Err((self, hands, NoMemory));
        };
        part(rt, hands, &mut owners, &mut rests);
        let Pool {
            alloc: _,
            stealers,
            keepers,
        } = self;
        drop(stealers);
        gather(rt, owners, keepers, rests, &mut left);
        Ok(left)
    }
}

// The account joins that of the deque's owner.
fn join_deque(own: &mut DequeOwner, deque: OtherDeque)
    requires more { 0 < (worker_view own.old).parts }
    requires is { deque_id deque ≡ worker_deque own.old }
    ensures same { (worker_deque own.new ≡ worker_deque own.old) ×
        (worker_flavor own.new ≡ worker_flavor own.old) }
    ensures rule { worker_view own.new ≡ account ((worker_view own.old).parts + 1)
        ((worker_view own.old).put ++ (deque_account deque).put)
        ((worker_view own.old).taken ++ (deque_account deque).taken) }
{
    let OtherDeque { stealer, pass } = deque;
    drop(stealer);
    own.absorb::<Parts>(pass);
}

fn join_queue(keeper: &mut QueueKeeper, queue: SharedQueue)
    requires more { 0 < (keeper_account keeper.old).parts }
    requires is { queue_id queue ≡ keeper_queue keeper.old }
    ensures same { keeper_queue keeper.new ≡ keeper_queue keeper.old }
    ensures rule { keeper_account keeper.new ≡ account ((keeper_account keeper.old).parts + 1)
        ((keeper_account keeper.old).put ++ (queue_account queue).put)
        ((keeper_account keeper.old).taken ++ (queue_account queue).taken) }
{
    let SharedQueue { mailbox, pass } = queue;
    drop(mailbox);
    keeper.mailbox.queue.absorb::<Parts>(&mut keeper.pass, pass);
}

// The memory is there: this waits for ever where it is not.
fn keep<T: Drop, R: Wait>(rt: &R, left: &mut Vec<T>, value: T)
    ensures { left.new.items ≡ left.old.items ++ value ∷ [] }
{
    let mut value = value;
    for _ in rt.forever() {
        match left.push(value) {
            Ok(()) => return,
            Err(failed) => value = failed.value,
        }
    }
}

// Takes all that a deque holds.
fn drain_owner<R: Wait>(rt: &R, own: &mut DequeOwner, left: &mut Vec<Ticket>)
    requires parts { (worker_view own.old).parts ≡ 128 }
    requires fifo { worker_flavor own.old ≡ 0 }
    ensures { (h : Ticket → ℕ) → weigh h (worker_view own.old).put + weigh h left.old.items ≡ weigh
        h (worker_view own.old).taken + weigh h left.new.items }
{
    for _ in rt.forever() {
        match own.pop_as::<Took>() {
            Some(ticket) => keep(rt, left, ticket),
            None => return,
        }
    }
}

// Takes all that a queue holds.
fn drain_keeper<R: Wait>(rt: &R, keeper: &mut QueueKeeper, left: &mut Vec<Ticket>)
    requires parts { (keeper_account keeper.old).parts ≡ 128 }
    ensures { (h : Ticket → ℕ) → weigh h (keeper_account keeper.old).put + weigh h left.old.items ≡
        weigh h (keeper_account keeper.old).taken + weigh h left.new.items }
{
    for _ in rt.forever() {
        match keeper.mailbox.queue.pop_as::<Took, R>(rt, &mut keeper.pass) {
            Some(ticket) => keep(rt, left, ticket),
            None => return,
        }
    }
}

// The passes of one hand join those of the deques' owners.
fn join_deques(owners: &mut Vec<DequeOwner>, deques: Vec<OtherDeque>, parts: u64)
    requires is { map deque_id deques.items ≡ map worker_deque owners.old.items }
    requires parts { HaveParts owner_account parts owners.old.items × (0 < parts) }
    requires fifo { AllFifo owners.old.items }
    ensures same { map worker_deque owners.new.items ≡ map worker_deque owners.old.items }
    ensures parts { HaveParts owner_account (parts + 1) owners.new.items }
    ensures fifo { AllFifo owners.new.items }
    ensures put { (h : Ticket → ℕ) → puts owner_account h owners.new.items ≡ puts owner_account h
        owners.old.items + puts deque_account h deques.items }
    ensures taken { (h : Ticket → ℕ) → takes owner_account h owners.new.items ≡ takes owner_account
        h owners.old.items + takes deque_account h deques.items }
{
    let mut deques = deques;
    while let Some(deque) = deques.pop() {
        let k = deques.len();
        join_deque(&mut owners[k], deque);
    }
}

fn join_queues(keepers: &mut Vec<QueueKeeper>, queues: Vec<SharedQueue>, parts: u64)
    requires is { map queue_id queues.items ≡ map keeper_queue keepers.old.items }
    requires parts { HaveParts keeper_account parts keepers.old.items × (0 < parts) }
    ensures same { map keeper_queue keepers.new.items ≡ map keeper_queue keepers.old.items }
    ensures parts { HaveParts keeper_account (parts + 1) keepers.new.items }
    ensures put { (h : Ticket → ℕ) → puts keeper_account h keepers.new.items ≡ puts keeper_account
        h keepers.old.items + puts queue_account h queues.items }
    ensures taken { (h : Ticket → ℕ) → takes keeper_account h keepers.new.items ≡ takes
        keeper_account h keepers.old.items + takes queue_account h queues.items }
{
    let mut queues = queues;
    while let Some(queue) = queues.pop() {
        let k = queues.len();
        join_queue(&mut keepers[k], queue);
    }
}

// Takes all that the deques hold.
fn drain_owners<R: Wait>(rt: &R, owners: Vec<DequeOwner>, left: &mut Vec<Ticket>)
    requires parts { HaveParts owner_account 128 owners.items }
    requires fifo { AllFifo owners.items }
    ensures { (h : Ticket → ℕ) → puts owner_account h owners.items + weigh h left.old.items ≡ takes
        owner_account h owners.items + weigh h left.new.items }
{
    let mut owners = owners;
    while let Some(own) = owners.pop() {
        let mut own = own;
        drain_owner(rt, &mut own, left);
    }
}

fn drain_keepers<R: Wait>(rt: &R, keepers: Vec<QueueKeeper>, left: &mut Vec<Ticket>)
    requires parts { HaveParts keeper_account 128 keepers.items }
    ensures { (h : Ticket → ℕ) → puts keeper_account h keepers.items + weigh h left.old.items ≡
        takes keeper_account h keepers.items + weigh h left.new.items }
{
    let mut keepers = keepers;
    while let Some(keeper) = keepers.pop() {
        let mut keeper = keeper;
        drain_keeper(rt, &mut keeper, left);
    }
}

// The deques' owners in order, and apart from them the hands' passes.
fn part<R: Wait>(rt: &R, hands: Vec<Hand>, owners: &mut Vec<DequeOwner>, rests: &mut Vec<Rest>)
    requires { (owners.old.items ≡ []) × (rests.old.items ≡ []) }
    ensures owners { owners.new.items ≡ map owner_of hands.items }
    ensures rests { rests.new.items ≡ map rest_of hands.items }
{
    let mut left = hands.into_iter();
    while let Some(hand) = left.next() {
        let Hand {
            reach,
            put: _,
            taken: _,
        } = hand;
        let Reach {
            own,
            deques,
            queues,
            home: _,
        } = reach;
        keep(rt, owners, own);
        keep(rt, rests, Rest { deques, queues });
    }
}

// The count of the tickets that are left.
fn left_count(hands: &[Hand]) -> u64 {
    let mut put: u64 = 0;
    let mut taken: u64 = 0;
    for hand in hands {
        put = put.saturating_add(hand.put);
        taken = taken.saturating_add(hand.taken);
    }
    put.saturating_sub(taken)
}

// All passes join, and all that is left is taken.
fn gather<R: Wait>(
    rt: &R,
    owners: Vec<DequeOwner>,
    keepers: Vec<QueueKeeper>,
    rests: Vec<Rest>,
    left: &mut Vec<Ticket>,
)
    requires fits { (0 < length rests.items) × (length rests.items ≤ 64) }
    requires rests { AllRests (map worker_deque owners.items) (map keeper_queue keepers.items)
        rests.items }
    requires fifo { AllFifo owners.items }
    requires parts { (p : ℕ) → p + length rests.items ≡ 128 → HaveParts owner_account p
        owners.items × HaveParts keeper_account p keepers.items }
    ensures { (h : Ticket → ℕ) → puts owner_account h owners.items + puts keeper_account h
        keepers.items + rests_put h rests.items + weigh h left.old.items ≡ takes owner_account h
        owners.items + takes keeper_account h keepers.items + rests_taken h rests.items + weigh h
        left.new.items }
{
    let mut owners = owners;
    let mut keepers = keepers;
    let mut rests = rests;
    let mut parts = 128 - rests.len() as u64;
    while let Some(rest) = rests.pop() {
        let Rest { deques, queues } = rest;
        join_deques(&mut owners, deques, parts);
        join_queues(&mut keepers, queues, parts);
        parts += 1;
    }
    drain_owners(rt, owners, left);
    drain_keepers(rt, keepers, left);
}
