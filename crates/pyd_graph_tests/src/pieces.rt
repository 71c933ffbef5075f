//! Bodies and turns of loops, whose statements a `return`, `break` or `continue` may leave.

mod rows;

use crate::reading::program_of;
use pyd_graph::nodes_text;
use pyd_ir::{Arg, Frame};
use pyd_scope::Program;
use pyd_translate::{At, Start, unfold_block};
use pyd_value::{List, NoMemory, Value};
use std::alloc::Global;
use std::test::Fail;

// Where the body of the first function begins.
fn first_body(alloc: Global) -> At {
    At {
        routine: 1,
        depth: 1,
        start: Start::Body,
        rest: List::new(alloc),
    }
}

// Where the first turn of a `while` begins that is the script's first statement.
fn first_turn(alloc: Global) -> Result<At, NoMemory> {
    let mut rest = List::new(alloc);
    rest.add(Frame::Again {
        stmt: 0,
        turns: 1,
        over: Arg::Known(Value::None),
    })?;
    Ok(At {
        routine: 0,
        depth: 0,
        start: Start::LoopBody(0),
        rest,
    })
}

// So many slots, none of which is bound.
fn unbound(alloc: Global, count: usize) -> Result<List<Arg>, NoMemory> {
    let mut env = List::new(alloc);
    for _ in 0..count {
        env.add(Arg::Unbound)?;
    }
    Ok(env)
}

// The nodes of a piece of a program, as text.
fn piece_text(alloc: Global, program: &Program, at: &At) -> Result<Vec<u8>, NoMemory> {
    let routines = program.routines.as_slice();
    let count = match routines.get(at.routine as usize) {
        Some(routine) => routine.slots.len(),
        None => 0,
    };
    let env = unbound(alloc, count)?;
    let piece = unfold_block(alloc, program, at, env.as_slice(), 0)?;
    nodes_text(alloc, routines, piece.nodes.as_slice())
}

#[test]
fn bodies_have_these_nodes(rt: HostRuntime) -> Result<(), Fail> {
    let at = first_body(rt.alloc());
    let mut number = 0usize;
    for row in rows::BODIES.split('\u{a7}') {
        if let Some((head, wanted)) = row.split_once("---\n") {
            let (title, source) = head.split_once('\n').ok_or("a title")?;
            let program = program_of(rt.alloc(), source).ok_or("a program")?;
            let text = piece_text(rt.alloc(), &program, &at)?;
            let text = String::from_utf8(text).ok().ok_or("a text")?;
            assert_eq!(rt; text.as_str(), wanted, "{number} {title}");
            number = number.saturating_add(1);
        }
    }
    assert_eq!(rt; number, rows::BODY_COUNT);
    Ok(())
}

#[test]
fn turns_have_these_nodes(rt: HostRuntime) -> Result<(), Fail> {
    let at = first_turn(rt.alloc())?;
    let mut number = 0usize;
    for row in rows::TURNS.split('\u{a7}') {
        if let Some((head, wanted)) = row.split_once("---\n") {
            let (title, source) = head.split_once('\n').ok_or("a title")?;
            let program = program_of(rt.alloc(), source).ok_or("a program")?;
            let text = piece_text(rt.alloc(), &program, &at)?;
            let text = String::from_utf8(text).ok().ok_or("a text")?;
            assert_eq!(rt; text.as_str(), wanted, "{number} {title}");
            number = number.saturating_add(1);
        }
    }
    assert_eq!(rt; number, rows::TURN_COUNT);
    Ok(())
}
