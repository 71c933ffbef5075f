//! Races of seats at one lock.
ghost use Rattle.std.specs.Prelude.{◌≡◌, ◌+◌, ◌^◌, ◌<◌};
ghost use Rattle.pyd_turn.specs.Seats.{IsFree, IsSame, IsSeatOf, joined, made, number};

use pyd_board::{Act, Event, Kept};
use pyd_turn::{Seat, TurnLock};
use pyd_value::NoMemory;
use std::alloc::Global;
use std::sync::Wait;
use std::test::Fail;
use std::thread::{Threads, join};

/// A list of events, of no run.
#[derive(Drop)]
struct Journal {
    events: Vec<Event>,
}

impl Kept for Journal {
    ghost use Rattle.std.specs.Prelude.{[], None};

    ghost name = { λ _. [] };

    ghost history = { λ j. record { events = j.events.items; sink_faults = []; halted = None } };
}

/// That many turns, in each of which one event is added where there is memory for it.
fn take_turns<W: Wait>(
    rt: &W,
    lock: &TurnLock<Journal>,
    mut seat: Seat<Journal>,
    by: u32,
    turns: u64,
) -> Seat<Journal>
    requires lock { IsSeatOf seat lock.now }
    requires seat { (number seat ≡ by) × IsFree seat }
    ensures same { IsSame seat result × IsFree result }
    ensures kept { (made result ≡ made seat) × (joined result ≡ joined seat) }
{
    for nth in 0..turns {
        take_turn(rt, lock, &mut seat, by, nth);
    }
    seat
}

fn take_turn<W: Wait>(rt: &W, lock: &TurnLock<Journal>, seat: &mut Seat<Journal>, by: u32, nth: u64)
    requires lock { IsSeatOf seat.old lock.now }
    requires seat { (number seat.old ≡ by) × IsFree seat.old }
    ensures same { IsSame seat.old seat.new × IsFree seat.new }
    ensures kept { (made seat.new ≡ made seat.old) × (joined seat.new ≡ joined seat.old) }
{
    let mut journal = lock.take(rt, seat);
    let act = Act::Settle(nth);
    let _full = journal.events.push(Event { by, nth, act }).is_err();
    lock.give(seat, journal);
}

/// Two seats, the second with the next number, take their turns in two threads.
fn take_turns_in_two_threads<R: Threads + Wait + Sync>(
    rt: &R,
    lock: &TurnLock<Journal>,
    one: Seat<Journal>,
    two: Seat<Journal>,
    by: u32,
    turns: u64,
) -> (Seat<Journal>, Seat<Journal>)
    requires lock { IsSeatOf one lock.now × IsSeatOf two lock.now }
    requires below { by + 1 < 2 ^ 32 }
    requires one { (number one ≡ by) × IsFree one }
    requires two { (number two ≡ by + 1) × IsFree two }
    ensures one { IsSame one result.0 × IsFree result.0 }
    ensures two { IsSame two result.1 × IsFree result.1 }
    ensures kept { (made result.0 ≡ made one) × (joined result.0 ≡ joined one) }
{
    let next = by + 1;
    join(
        rt,
        || -> Seat<Journal>
            requires { IsSeatOf one lock.now × (number one ≡ by) × IsFree one }
            ensures { IsSame one result × IsFree result × (made result ≡ made one)
                × (joined result ≡ joined one) }
        { take_turns(rt, lock, one, by, turns) },
        || -> Seat<Journal>
            requires { IsSeatOf two lock.now × (number two ≡ next) × IsFree two }
            ensures { IsSame two result × IsFree result }
        { take_turns(rt, lock, two, next, turns) },
    )
}

fn race_of_two<R: Threads + Wait + Sync>(
    rt: &R,
    alloc: Global,
    turns: u64,
) -> Result<Journal, NoMemory> {
    let events = Vec::new(alloc);
    let (lock, mut one) = TurnLock::new(alloc, Journal { events }).map_err(|_| NoMemory)?;
    let two = lock.split(&mut one);
    let (mut one, two) = take_turns_in_two_threads(rt, &lock, one, two, 0, turns);
    lock.join(&mut one, two);
    Ok(lock.close(one))
}

fn race_of_four<R: Threads + Wait + Sync>(
    rt: &R,
    alloc: Global,
    turns: u64,
) -> Result<Journal, NoMemory> {
    let events = Vec::new(alloc);
    let (lock, mut one) = TurnLock::new(alloc, Journal { events }).map_err(|_| NoMemory)?;
    let two = lock.split(&mut one);
    let three = lock.split(&mut one);
    let four = lock.split(&mut one);
    let ((mut one, two), (three, four)) = join(
        rt,
        || -> (Seat<Journal>, Seat<Journal>)
            requires { IsSeatOf one lock × IsSeatOf two lock × (number one ≡ 0) × IsFree one
                × (number two ≡ 1) × IsFree two }
            ensures { IsSame one result.0 × IsFree result.0 × IsSame two result.1
                × IsFree result.1 × (made result.0 ≡ made one) × (joined result.0 ≡ joined one) }
        { take_turns_in_two_threads(rt, &lock, one, two, 0, turns) },
        || -> (Seat<Journal>, Seat<Journal>)
            requires { IsSeatOf three lock × IsSeatOf four lock × (number three ≡ 2)
                × IsFree three × (number four ≡ 3) × IsFree four }
            ensures { IsSame three result.0 × IsFree result.0 × IsSame four result.1
                × IsFree result.1 }
        { take_turns_in_two_threads(rt, &lock, three, four, 2, turns) },
    );
    lock.join(&mut one, two);
    lock.join(&mut one, three);
    lock.join(&mut one, four);
    Ok(lock.close(one))
}

/// How many events each seat has, where those of each are numbered 0, 1, 2 and so on.
fn counts_in_order(events: &[Event]) -> Option<[u64; 4]> {
    let mut counts = [0u64; 4];
    for event in events {
        let count = counts.get_mut(event.by as usize)?;
        if event.nth != *count {
            return None;
        }
        *count = count.checked_add(1)?;
    }
    Some(counts)
}

#[test]
fn two_threads_take_a_thousand_turns_each(rt: HostRuntime) -> Result<(), Fail> {
    let journal = race_of_two(&rt, rt.alloc(), 1000)?;
    assert!(rt; journal.events.len() == 2000);
    assert!(rt; counts_in_order(&journal.events) == Some([1000, 1000, 0, 0]));
    Ok(())
}

#[test]
fn four_threads_take_250_turns_each(rt: HostRuntime) -> Result<(), Fail> {
    let journal = race_of_four(&rt, rt.alloc(), 250)?;
    assert!(rt; journal.events.len() == 1000);
    assert!(rt; counts_in_order(&journal.events) == Some([250, 250, 250, 250]));
    Ok(())
}
