//! Nodes and numbers written in words.

use pyd_ir::{Arg, Frame, Node, OpCode, Ref, Rest, Side, Work};
use pyd_value::{BinOp, Fault, Kind, Limit, List, NoMemory, Value};
use std::alloc::Global;

// Numbers divided by spaces or commas.
pub(super) fn numbers(alloc: Global, words: &str) -> Result<List<u64>, NoMemory> {
    let mut numbers = List::new(alloc);
    for word in words.split([' ', ',']) {
        if let Ok(n) = word.parse::<u64>() {
            numbers.add(n)?;
        }
    }
    Ok(numbers)
}

// Nodes divided by spaces: a number, what the node does, and the numbers that it names, by colons.
pub(super) fn nodes(alloc: Global, words: &str) -> Result<List<Node>, NoMemory> {
    let mut nodes = List::new(alloc);
    for word in words.split_whitespace() {
        nodes.add(node(alloc, word)?)?;
    }
    Ok(nodes)
}

fn node(alloc: Global, word: &str) -> Result<Node, NoMemory> {
    let mut parts = word.split(':');
    let id = parts.next().unwrap_or("").parse::<u64>().unwrap_or(0);
    let kind = parts.next().unwrap_or("");
    let named = numbers(alloc, parts.next().unwrap_or(""))?;
    Ok(Node {
        id,
        line: 1,
        depth: 0,
        routine: 0,
        work: work(alloc, kind, named.as_slice())?,
    })
}

fn work(alloc: Global, kind: &str, named: &[u64]) -> Result<Work, NoMemory> {
    match kind {
        "op" => Ok(Work::Op {
            op: OpCode::Binary(BinOp::Add),
            args: args(alloc, named)?,
        }),
        "read" => Ok(Work::Read {
            arg: slot(first(named)),
            kind: Kind::NameError,
        }),
        "call" => Ok(Work::Call {
            func: 1,
            args: args(alloc, named)?,
        }),
        "stop" => Ok(Work::Stop(Fault::Limit(Limit::Turn, 1))),
        "print" => Ok(Work::Print(args(alloc, named)?)),
        "run" => Ok(Work::Run {
            func: 1,
            args: args(alloc, named)?,
        }),
        "enter" => Ok(Work::Enter {
            func: 1,
            args: args(alloc, named)?,
        }),
        _ => composite(alloc, kind, named),
    }
}

// The first number stands in a frame or in the first side, the others in slots or in the other side.
fn composite(alloc: Global, kind: &str, named: &[u64]) -> Result<Work, NoMemory> {
    let rest = rest(alloc, first(named))?;
    let env = slots(alloc, named)?;
    match kind {
        "cond" => Ok(Work::Cond {
            test: Arg::Unbound,
            stmt: 0,
            arm: 0,
            rest,
            env,
        }),
        "while" => Ok(Work::While {
            test: Arg::Unbound,
            stmt: 0,
            turns: 0,
            rest,
            env,
        }),
        "for" => Ok(Work::For {
            over: Arg::Unbound,
            stmt: 0,
            turns: 0,
            rest,
            env,
        }),
        _ => Ok(Work::Pick {
            test: Arg::Unbound,
            yes: Side::Arg(port(first(named))),
            no: Side::Tail {
                expr: 0,
                member: 1,
                left: port(last(named)),
            },
            env: List::new(alloc),
        }),
    }
}

fn rest(alloc: Global, over: u64) -> Result<Rest, NoMemory> {
    let mut rest = List::new(alloc);
    rest.add(Frame::After(0))?;
    rest.add(Frame::Again {
        stmt: 0,
        turns: 1,
        over: port(over),
    })?;
    Ok(rest)
}

// All but the first.
fn slots(alloc: Global, named: &[u64]) -> Result<List<Arg>, NoMemory> {
    let mut slots = List::new(alloc);
    for n in named.iter().skip(1) {
        slots.add(slot(*n))?;
    }
    Ok(slots)
}

fn args(alloc: Global, named: &[u64]) -> Result<List<Arg>, NoMemory> {
    let mut args = List::new(alloc);
    args.add(Arg::Known(Value::Int(1)))?;
    for n in named {
        args.add(port(*n))?;
    }
    Ok(args)
}

fn first(named: &[u64]) -> u64 {
    named.first().copied().unwrap_or(0)
}

fn last(named: &[u64]) -> u64 {
    named.last().copied().unwrap_or(0)
}

fn port(node: u64) -> Arg {
    Arg::From(Ref { node, port: 0 })
}

fn slot(node: u64) -> Arg {
    Arg::Slot(Ref { node, port: 1 })
}
