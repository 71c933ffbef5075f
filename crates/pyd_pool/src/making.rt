//! A pool and its hands are made.
ghost use Rattle.std.specs.Prelude.{◌≡◌, ℕ, ◌+◌, ◌-◌, ◌*◌, ◌<◌, ◌≤◌, [], ◌∷◌, ◌++◌, map, length, vec_len, IfOk, IfErr, MatchResult, MatchOption};
ghost use Rattle.crossbeam_queue.specs.SegTies.{IsSegPassOf};
ghost use Rattle.crossbeam_deque.specs.Handles.{worker_flavor, worker_view, worker_deque, stealer_deque, stealer_flavor};
ghost use Rattle.pyd_pool.specs.Accounts.{account, weigh};
ghost use Rattle.pyd_pool.specs.Hands.{deque_account, queue_account, deque_id, queue_id, puts, takes};
ghost use Rattle.pyd_pool.specs.Whole.{put_by, taken_by};
ghost use Rattle.pyd_pool.specs.Ends.{owner_account, keeper_account, keeper_queue, HaveParts, Every, AllFifo, AllRests, owner_of, rest_of, hand_deque, Unused, HaveAll, AreAtHome, all_put, all_taken, AllHands};

use crate::hand::Hand;
use crate::places::{DequeOwner, DequeStealer, Mailbox, OtherDeque, SharedQueue};
use crate::pool::{Pool, QueueKeeper, Rest};
use crate::reach::Reach;
use crate::rule::{Conserved, Parts, Took};
use crossbeam_queue::RuledSegQueue;
use pyd_board::Ticket;
use pyd_value::NoMemory;
use std::alloc::{AllocError, Global};
use std::sync::{Arc, Wait};

impl Pool {
    /// The hands in order of their deques.
    pub fn new(alloc: Global, machines: u32, workers: u32) -> Result<(Pool, Vec<Hand>), NoMemory>
        requires machines { (0 < machines) × (machines ≤ 16) }
        requires workers { (0 < workers) × (workers ≤ 4) }
        ensures hands { IfOk result (λ r. AllHands r.0 r.1.items) }
        ensures none { IfOk result (λ r. (h : Ticket → ℕ) → (all_put h r.1.items ≡ 0) ×
            (all_taken h r.1.items ≡ 0)) }
        ensures queues { IfOk result (λ r. length r.0.keepers.items ≡ machines) }
        ensures count { IfOk result (λ r. length r.1.items ≡ machines * workers) }
        ensures homes { IfOk result (λ r. AreAtHome workers r.1.items) }
    {
        match make(alloc, machines as usize, workers as usize) {
            Ok(made) => Ok(made),
            Err(_) => Err(NoMemory),
        }
    }
}

fn new_owner(alloc: Global) -> Result<DequeOwner, AllocError>
    ensures { IfOk result (λ w. (worker_view w ≡ account 128 [] []) × (worker_flavor w ≡ 0)) }
{
    DequeOwner::fifo_as(alloc, 64)
}

fn new_keeper(alloc: Global) -> Result<QueueKeeper, AllocError>
    ensures { IfOk result (λ x. keeper_account x ≡ account 128 [] []) }
{
    let (queue, pass) = RuledSegQueue::with_rule(alloc)?;
    let mailbox = Arc::new(alloc, Mailbox { queue })?;
    Ok(QueueKeeper { mailbox, pass })
}

// A part of the owner, and the deque from outside.
fn new_deque(own: &mut DequeOwner) -> Result<OtherDeque, AllocError>
    requires more { 1 < (worker_view own.old).parts }
    requires fifo { worker_flavor own.old ≡ 0 }
    ensures same { (worker_deque own.new ≡ worker_deque own.old) × (worker_flavor own.new ≡ 0) }
    ensures deque { IfOk result (λ l. (deque_id l ≡ worker_deque own.old) ×
        (deque_account l ≡ account 1 [] []) × ((worker_view own.new).parts + 1 ≡
        (worker_view own.old).parts) × ((worker_view own.new).put ≡ (worker_view own.old).put) ×
        ((worker_view own.new).taken ≡ (worker_view own.old).taken)) }
{
    let stealer = own.stealer()?;
    let pass = own.another::<Parts>();
    Ok(OtherDeque { stealer, pass })
}

fn new_queue(keeper: &mut QueueKeeper) -> Result<SharedQueue, AllocError>
    requires { 1 < (keeper_account keeper.old).parts }
    ensures same { keeper_queue keeper.new ≡ keeper_queue keeper.old }
    ensures queue { IfOk result (λ s. (queue_id s ≡ keeper_queue keeper.old) ×
        (queue_account s ≡ account 1 [] []) × ((keeper_account keeper.new).parts + 1 ≡
        (keeper_account keeper.old).parts) × ((keeper_account keeper.new).put ≡
        (keeper_account keeper.old).put) × ((keeper_account keeper.new).taken ≡
        (keeper_account keeper.old).taken)) }
{
    let mailbox = Arc::try_clone(&keeper.mailbox)?;
    let pass = keeper.mailbox.queue.another::<Parts>(&mut keeper.pass);
    Ok(SharedQueue { mailbox, pass })
}

fn make(alloc: Global, machines: usize, workers: usize) -> Result<(Pool, Vec<Hand>), AllocError>
    requires machines { (0 < machines) × (machines ≤ 16) }
    requires workers { (0 < workers) × (workers ≤ 4) }
    ensures hands { IfOk result (λ r. AllHands r.0 r.1.items) }
    ensures none { IfOk result (λ r. (h : Ticket → ℕ) → (all_put h r.1.items ≡ 0) ×
        (all_taken h r.1.items ≡ 0)) }
    ensures queues { IfOk result (λ r. length r.0.keepers.items ≡ machines) }
    ensures count { IfOk result (λ r. length r.1.items ≡ machines * workers) }
    ensures homes { IfOk result (λ r. AreAtHome workers r.1.items) }
{
    let count = machines * workers;
    let mut owners = new_owners(alloc, count)?;
    let stealers = new_stealers(alloc, &owners)?;
    let mut keepers = new_keepers(alloc, machines)?;
    let rests = new_rests(alloc, &mut owners, &mut keepers, count)?;
    let hands = new_hands(alloc, owners, &keepers, rests, workers)?;
    let pool = Pool {
        alloc,
        stealers,
        keepers,
    };
    Ok((pool, hands))
}

fn new_owners(alloc: Global, count: usize) -> Result<Vec<DequeOwner>, AllocError>
    ensures long { IfOk result (λ xs. length xs.items ≡ count) }
    ensures fresh { IfOk result (λ xs. Every (λ x. owner_account x ≡ account 128 [] []) xs.items) }
    ensures fifo { IfOk result (λ xs. AllFifo xs.items) }
{
    let mut owners = Vec::new(alloc);
    for made in 0..count {
        let own = new_owner(alloc)?;
        owners.push(own)?;
    }
    Ok(owners)
}

fn new_stealers(alloc: Global, owners: &Vec<DequeOwner>) -> Result<Vec<DequeStealer>, AllocError>
    ensures { IfOk result (λ xs. map stealer_deque xs.items ≡ map worker_deque owners.now.items) }
{
    let mut stealers = Vec::new(alloc);
    for k in 0..owners.len() {
        let stealer = owners[k].stealer()?;
        stealers.push(stealer)?;
    }
    Ok(stealers)
}

fn new_keepers(alloc: Global, count: usize) -> Result<Vec<QueueKeeper>, AllocError>
    ensures long { IfOk result (λ xs. length xs.items ≡ count) }
    ensures fresh { IfOk result (λ xs. Every (λ x. keeper_account x ≡ account 128 [] []) xs.items) }
{
    let mut keepers = Vec::new(alloc);
    for made in 0..count {
        let keeper = new_keeper(alloc)?;
        keepers.push(keeper)?;
    }
    Ok(keepers)
}

fn new_rests(
    alloc: Global,
    owners: &mut Vec<DequeOwner>,
    keepers: &mut Vec<QueueKeeper>,
    count: usize,
) -> Result<Vec<Rest>, AllocError>
    requires fresh { Every (λ x. owner_account x ≡ account 128 [] []) owners.old.items × Every
        (λ x. keeper_account x ≡ account 128 [] []) keepers.old.items × (count ≤ 64) }
    requires fifo { AllFifo owners.old.items }
    ensures same { IfOk result (λ _. (map worker_deque owners.new.items ≡ map worker_deque
        owners.old.items) × (map keeper_queue keepers.new.items ≡ map keeper_queue
        keepers.old.items) × AllFifo owners.new.items) }
    ensures logs { IfOk result (λ _. Every (λ x. owner_account x ≡ account (128 - count) [] [])
        owners.new.items × Every (λ x. keeper_account x ≡ account (128 - count) [] [])
        keepers.new.items) }
    ensures rests { IfOk result (λ xs. (length xs.items ≡ count) × AllRests
        (map worker_deque owners.old.items) (map keeper_queue keepers.old.items) xs.items) }
    ensures unused { IfOk result (λ xs. (h : Ticket → ℕ) → Every (Unused h) xs.items) }
{
    let mut rests = Vec::new(alloc);
    for made in 0..count {
        let parts = 128 - made as u64;
        let deques = new_deques(alloc, owners, parts)?;
        let queues = new_queues(alloc, keepers, parts)?;
        rests.push(Rest { deques, queues })?;
    }
    Ok(rests)
}

// A hand of an owner and of passes through which nothing went.
fn new_hand(own: DequeOwner, rest: Rest, home: usize) -> Hand
    requires fifo { worker_flavor own ≡ 0 }
    requires parts { (owner_account own).parts + length rest.deques.items ≡ 128 }
    requires few { length rest.deques.items ≤ 64 }
    requires home { home < length rest.queues.items }
    requires fresh { ((owner_account own).put ≡ []) × ((owner_account own).taken ≡ []) }
    requires unused { (h : Ticket → ℕ) → Unused h rest }
    ensures own { owner_of result ≡ own }
    ensures rest { rest_of result ≡ rest }
    ensures home { result.reach.home ≡ home }
    ensures none { (h : Ticket → ℕ) → (put_by h result.reach ≡ 0) × (taken_by h result.reach ≡ 0) }
{
    let Rest { deques, queues } = rest;
    let reach = Reach {
        own,
        deques,
        queues,
        home,
    };
    Hand {
        reach,
        put: 0,
        taken: 0,
    }
}

// Hand after hand, machine after machine.
fn new_hands(
    alloc: Global,
    owners: Vec<DequeOwner>,
    keepers: &Vec<QueueKeeper>,
    rests: Vec<Rest>,
    workers: usize,
) -> Result<Vec<Hand>, AllocError>
    requires workers { 0 < workers }
    requires long { length rests.items ≡ length owners.items }
    requires few { length owners.items ≤ 64 }
    requires queues { length owners.items ≡ length keepers.now.items * workers }
    requires fifo { AllFifo owners.items }
    requires fresh { Every (λ x. owner_account x ≡ account (128 - length owners.items) [] [])
        owners.items }
    requires rests { AllRests (map worker_deque owners.items) (map keeper_queue keepers.now.items)
        rests.items }
    requires unused { (h : Ticket → ℕ) → Every (Unused h) rests.items }
    ensures owners { IfOk result (λ xs. map owner_of xs.items ≡ owners.items) }
    ensures rests { IfOk result (λ xs. HaveAll (map worker_deque owners.items)
        (map keeper_queue keepers.now.items) xs.items) }
    ensures none { IfOk result (λ xs. (h : Ticket → ℕ) → (all_put h xs.items ≡ 0) ×
        (all_taken h xs.items ≡ 0)) }
    ensures homes { IfOk result (λ xs. AreAtHome workers xs.items) }
{
    let mut hands = Vec::new(alloc);
    let mut left = owners.into_iter();
    let mut rests = rests;
    while let Some(own) = left.next() {
        let home = hands.len() / workers;
        let Some(rest) = rests.pop() else {
            unreachable!()
        };
        hands.push(new_hand(own, rest, home))?;
    }
    Ok(hands)
}

fn new_deques(
    alloc: Global,
    owners: &mut Vec<DequeOwner>,
    parts: u64,
) -> Result<Vec<OtherDeque>, AllocError>
    requires parts { Every (λ x. owner_account x ≡ account parts [] []) owners.old.items ×
        (1 < parts) }
    requires fifo { AllFifo owners.old.items }
    ensures same { IfOk result (λ _. map worker_deque owners.new.items ≡ map worker_deque
        owners.old.items) }
    ensures fifo { IfOk result (λ _. AllFifo owners.new.items) }
    ensures parts { IfOk result (λ _. Every (λ x. owner_account x ≡ account (parts - 1) [] [])
        owners.new.items) }
    ensures deques { IfOk result (λ xs. map deque_id xs.items ≡ map worker_deque owners.old.items) }
    ensures logs { IfOk result (λ xs. (h : Ticket → ℕ) → (puts deque_account h xs.items ≡ 0) ×
        (takes deque_account h xs.items ≡ 0)) }
{
    let mut deques = Vec::new(alloc);
    for k in 0..owners.len() {
        let deque = new_deque(&mut owners[k])?;
        deques.push(deque)?;
    }
    Ok(deques)
}

fn new_queues(
    alloc: Global,
    keepers: &mut Vec<QueueKeeper>,
    parts: u64,
) -> Result<Vec<SharedQueue>, AllocError>
    requires parts { Every (λ x. keeper_account x ≡ account parts [] []) keepers.old.items ×
        (1 < parts) }
    ensures same { IfOk result (λ _. map keeper_queue keepers.new.items ≡ map keeper_queue
        keepers.old.items) }
    ensures parts { IfOk result (λ _. Every (λ x. keeper_account x ≡ account (parts - 1) [] [])
        keepers.new.items) }
    ensures queues { IfOk result (λ xs.
        map queue_id xs.items ≡ map keeper_queue keepers.old.items) }
    ensures logs { IfOk result (λ xs. (h : Ticket → ℕ) → (puts queue_account h xs.items ≡ 0) ×
        (takes queue_account h xs.items ≡ 0)) }
{
    let mut queues = Vec::new(alloc);
    for k in 0..keepers.len() {
        let queue = new_queue(&mut keepers[k])?;
        queues.push(queue)?;
    }
    Ok(queues)
}
