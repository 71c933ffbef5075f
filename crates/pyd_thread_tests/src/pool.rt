//! The order in which a hand looks, and four threads whose tickets are all found again.
ghost use Rattle.std.specs.Prelude.{◌≡◌, ◌≤◌, [], ◌∷◌, ◌++◌, IfOk};
ghost use Rattle.pyd_pool.specs.Ends.{hand_places};

use pyd_board::Ticket;
use pyd_pool::{Hand, Pool};
use pyd_value::NoMemory;
use std::alloc::Global;
use std::rt::HostRuntime;
use std::sync::Wait;
use std::test::Fail;
use std::thread::{Threads, join};

/// How many tickets each thread of the race puts.
const EACH: u64 = 2_500;

fn ticket(node: u64) -> Ticket {
    Ticket {
        node,
        attempt: 0,
        machine: 0,
    }
}

/// The nodes that two hands of one machine take after hand 0 mailed A and pushed B and C, and what
/// is left at the close after hand 1 has pushed one more.
fn order_of_two<R: Wait>(
    rt: &R,
    alloc: Global,
) -> Result<([Option<u64>; 4], Vec<Ticket>), NoMemory> {
    let (pool, mut hands) = Pool::new(alloc, 1, 2)?;
    let (Some(mut second), Some(mut first)) = (hands.pop(), hands.pop()) else {
        return Err(NoMemory);
    };
    first.mail(rt, 0, ticket(1)).map_err(|_| NoMemory)?;
    first.push(rt, ticket(2)).map_err(|_| NoMemory)?;
    first.push(rt, ticket(3)).map_err(|_| NoMemory)?;
    let taken = [
        first.take(rt).map(|ticket| ticket.node),
        second.take(rt).map(|ticket| ticket.node),
        second.take(rt).map(|ticket| ticket.node),
        second.take(rt).map(|ticket| ticket.node),
    ];
    second.push(rt, ticket(4)).map_err(|_| NoMemory)?;
    give_back(&mut hands, first)?;
    give_back(&mut hands, second)?;
    let left = pool.close(rt, hands).map_err(|_| NoMemory)?;
    Ok((taken, left))
}

fn give_back(hands: &mut Vec<Hand>, hand: Hand) -> Result<(), NoMemory>
    ensures { IfOk result (λ _. hands.new.items ≡ hands.old.items ++ hand ∷ []) }
{
    match hands.push(hand) {
        Ok(()) => Ok(()),
        Err(_) => Err(NoMemory),
    }
}

/// A hand after its thread, and the nodes of the tickets that it took.
#[derive(Drop)]
struct Worked {
    hand: Hand,
    taken: Vec<u64>,
}

/// Puts tickets from the node `first` on, and takes one after every second.
fn work<R: Wait>(rt: &R, alloc: Global, hand: Hand, first: u64) -> Worked
    requires { first ≤ 10000 }
    ensures same { hand_places result.hand ≡ hand_places hand }
{
    let mut hand = hand;
    let mut taken = Vec::new(alloc);
    for node in first..first + EACH {
        put(rt, &mut hand, node);
        if node % 2 == 0 {
            note(&mut taken, hand.take(rt));
        }
    }
    Worked { hand, taken }
}

/// Mails every third ticket, some of them to a machine that isn't there, and pushes the others.
fn put<R: Wait>(rt: &R, hand: &mut Hand, node: u64)
    ensures same { hand_places hand.new ≡ hand_places hand.old }
{
    let refused = if node % 3 == 0 {
        hand.mail(rt, (node % 5) as u32, ticket(node)).is_err()
    } else {
        hand.push(rt, ticket(node)).is_err()
    };
    let _counted_at_the_end = refused;
}

fn note(taken: &mut Vec<u64>, ticket: Option<Ticket>) {
    if let Some(ticket) = ticket {
        let _counted_at_the_end = taken.push(ticket.node).is_err();
    }
}

fn work_in_two_threads<R: Threads + Wait + Sync>(
    rt: &R,
    alloc: Global,
    one: Hand,
    two: Hand,
    first: u64,
) -> (Worked, Worked)
    requires { first ≤ 7500 }
    ensures one { hand_places result.0.hand ≡ hand_places one }
    ensures two { hand_places result.1.hand ≡ hand_places two }
{
    let next = first + EACH;
    join(
        rt,
        || -> Worked
            requires { first ≤ 7500 }
            ensures { hand_places result.hand ≡ hand_places one }
        { work(rt, alloc, one, first) },
        || -> Worked
            requires { next ≤ 10000 }
            ensures { hand_places result.hand ≡ hand_places two }
        { work(rt, alloc, two, next) },
    )
}

/// How often each node was taken or left.
fn race_of_four<R: Threads + Wait + Sync>(rt: &R, alloc: Global) -> Result<Vec<u32>, NoMemory> {
    let (pool, mut hands) = Pool::new(alloc, 2, 2)?;
    let (Some(four), Some(three), Some(two), Some(one)) = (
        hands.pop(),
        hands.pop(),
        hands.pop(),
        hands.pop(),
    ) else {
        return Err(NoMemory);
    };
    let ((one, two), (three, four)) = join(
        rt,
        || -> (Worked, Worked)
            ensures { (hand_places result.0.hand ≡ hand_places one)
                × (hand_places result.1.hand ≡ hand_places two) }
        { work_in_two_threads(rt, alloc, one, two, 0) },
        || -> (Worked, Worked)
            ensures { (hand_places result.0.hand ≡ hand_places three)
                × (hand_places result.1.hand ≡ hand_places four) }
        { work_in_two_threads(rt, alloc, three, four, 2 * EACH) },
    );
    let mut counts = zeros(alloc, 4 * EACH)?;
    count(&mut counts, &one.taken);
    count(&mut counts, &two.taken);
    count(&mut counts, &three.taken);
    count(&mut counts, &four.taken);
    give_back(&mut hands, one.hand)?;
    give_back(&mut hands, two.hand)?;
    give_back(&mut hands, three.hand)?;
    give_back(&mut hands, four.hand)?;
    let left = pool.close(rt, hands).map_err(|_| NoMemory)?;
    count_left(&mut counts, &left);
    Ok(counts)
}

fn zeros(alloc: Global, count: u64) -> Result<Vec<u32>, NoMemory> {
    let mut counts = Vec::new(alloc);
    for _ in 0..count {
        counts.push(0).map_err(|_| NoMemory)?;
    }
    Ok(counts)
}

fn count_left(counts: &mut Vec<u32>, left: &[Ticket]) {
    for ticket in left {
        count_one(counts, ticket.node);
    }
}

fn count(counts: &mut Vec<u32>, nodes: &[u64]) {
    for node in nodes {
        count_one(counts, *node);
    }
}

fn count_one(counts: &mut Vec<u32>, node: u64) {
    if let Some(count) = counts.get_mut(node as usize) {
        *count = count.saturating_add(1);
    }
}

fn all_once(counts: &[u32]) -> bool {
    for count in counts {
        if *count != 1 {
            return false;
        }
    }
    true
}

#[test]
fn its_deque_comes_first_then_its_queue_then_the_other_deque(rt: HostRuntime) -> Result<(), Fail> {
    let (taken, left) = order_of_two(&rt, rt.alloc())?;
    assert!(rt; taken == [Some(2), Some(1), Some(3), None]);
    assert!(rt; left.len() == 1);
    assert!(rt; left[0] == ticket(4));
    Ok(())
}

#[test]
fn each_of_10_000_tickets_is_taken_or_left_once(rt: HostRuntime) -> Result<(), Fail> {
    let counts = race_of_four(&rt, rt.alloc())?;
    assert!(rt; counts.len() == 10_000);
    assert!(rt; all_once(&counts));
    Ok(())
}
