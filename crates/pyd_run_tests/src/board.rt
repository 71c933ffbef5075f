//! Placers by rows, a journal, and each trait through its bound.

mod serving;

use crate::callers::settle_both;
use pyd_board::*;
use std::alloc::{AllocError, Global};
use std::test::Fail;

// Which machines live, `-` marking those that don't, and what round robin answers.
const ROUNDS: [&[(&str, u32)]; 4] = [
    // all live, then machine 1 doesn't
    &[("+++", 0), ("+++", 1), ("+++", 2), ("+++", 0), ("+-+", 2)],
    // the circle is that of the entries, and past its end it starts again
    &[
        ("+++", 0),
        ("+++", 1),
        ("+++", 2),
        ("++", 0),
        ("++++", 1),
        ("+", 0),
    ],
    // machine 0 doesn't live at first
    &[("-++", 1), ("+--", 0), ("---+", 3), ("-+", 1), ("+-", 0)],
    // one machine lives
    &[("-+-", 1), ("-+-", 1), ("-+-", 1)],
];

// Which machines live, an answer, and the machine that it counts as.
const COUNTS_AS: [(&str, u32, u32); 6] = [
    ("+++", 2, 2),
    ("+-+", 1, 0),
    ("-++", 0, 1),
    ("--+", 4294967295, 2),
    ("+", 1, 0),
    ("-+", 2, 1),
];

fn alive(alloc: Global, marks: &str) -> Result<Vec<bool>, AllocError> {
    let mut alive = Vec::new(alloc);
    for mark in marks.chars() {
        alive.push(mark == '+')?;
    }
    Ok(alive)
}

// What a placer answers, or none where no machine lives.
fn ask<P: Placer>(alloc: Global, placer: &mut P, marks: &str) -> Result<Option<u32>, AllocError> {
    let alive = alive(alloc, marks)?;
    if alive.contains(&true) {
        Ok(Some(placer.place(7, 0, &alive)))
    } else {
        Ok(None)
    }
}

#[test]
fn round_robin_goes_round_the_live_machines(rt: HostRuntime) -> Result<(), Fail> {
    for rows in ROUNDS {
        let mut plain = RoundRobin::new(3);
        let mut noted = NotedPlacer::new(rt.alloc(), RoundRobin::new(16), 2)?;
        for (marks, machine) in rows {
            let answer = ask(rt.alloc(), &mut plain, *marks)?;
            assert_eq!(rt; answer, Some(*machine), "{marks}");
            assert_eq!(rt; ask(rt.alloc(), &mut noted, *marks)?, answer, "{marks}");
            plain.ended(7, 2);
            plain.lost(1);
        }
    }
    Ok(())
}

#[test]
fn near_stays_where_work_ended(rt: HostRuntime) -> Result<(), Fail> {
    let mut near = Near::new();
    assert_eq!(rt; ask(rt.alloc(), &mut near, "+++")?, Some(0));
    near.ended(7, 2);
    assert_eq!(rt; ask(rt.alloc(), &mut near, "+++")?, Some(2));
    near.lost(2);
    assert_eq!(rt; ask(rt.alloc(), &mut near, "++-")?, Some(2));
    near.ended(8, 1);
    assert_eq!(rt; ask(rt.alloc(), &mut near, "++-")?, Some(1));
    Ok(())
}

#[test]
fn an_answer_for_no_live_machine_counts_as_the_least_live_one(rt: HostRuntime) -> Result<(), Fail> {
    for (marks, answer, machine) in COUNTS_AS {
        let alive = alive(rt.alloc(), marks)?;
        assert_eq!(rt; placed_on(&alive, answer), machine, "{marks}, {answer}");
    }
    Ok(())
}

#[test]
fn calls_are_told_within_the_room(rt: HostRuntime) -> Result<(), Fail> {
    let mut placer = NotedPlacer::new(rt.alloc(), RoundRobin::new(2), 3)?;
    assert_eq!(rt; ask(rt.alloc(), &mut placer, "-+")?, Some(1));
    placer.ended(7, 1);
    placer.lost(0);
    let calls = [Asked::Place(7, 0, 1), Asked::Ended(7, 1), Asked::Lost(0)];
    assert_eq!(rt; placer.calls(), Some(calls.as_slice()));
    placer.lost(1);
    assert_eq!(rt; placer.calls(), None);
    placer.ended(8, 0);
    assert_eq!(rt; placer.calls(), None);
    Ok(())
}

#[test]
fn a_boxed_placer_is_asked(rt: HostRuntime) -> Result<(), Fail> {
    let mut round: Box<dyn Placer + Send> = Box::new(rt.alloc(), RoundRobin::new(2))?;
    let mut near: Box<dyn Placer + Send> = Box::new(rt.alloc(), Near::new())?;
    near.ended(7, 1);
    near.lost(1);
    let alive = [true, false];
    let answers = (round.place(8, 1, &alive), near.place(8, 1, &alive));
    assert_eq!(rt; answers, (0, 1));
    Ok(())
}

fn pass<G: Gate>(gate: &G) {
    gate.before(1, 7);
    gate.after(1, 7);
}

#[test]
fn a_journal_numbers_the_entries_of_each_seat(rt: HostRuntime) -> Result<(), Fail> {
    pass(&OpenGate);
    let mut journal = Journal::new(rt.alloc());
    settle_both(&mut journal, 2, (0, 1))?;
    let rows = [(2, 0), (2, 1), (0, 0), (1, 0), (2, 2), (0, 1), (2, 3)];
    for (by, nth) in &rows[2..] {
        let (by, nth) = (*by, *nth);
        assert_eq!(rt; entries(by, journal.events()) as u64, nth);
        journal.append(by, Act::Settle(nth))?;
    }
    let events = journal.events();
    assert_eq!(rt; events.len(), rows.len());
    for (event, (by, nth)) in events.iter().zip(&rows) {
        let act = Act::Settle(*nth);
        assert_eq!(rt;
            *event,
            Event {
                by: *by,
                nth: *nth,
                act
            }
        );
    }
    Ok(())
}
