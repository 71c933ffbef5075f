//! Nodes made by hand.

use pyd_ir::{Arg, Frame, Node, OpCode, Ref, Rest, Side, Work};
use pyd_scope::Routine;
use pyd_value::{Fault, Kind, Limit, List, NoMemory, Text, Value};
use std::alloc::Global;

const FIRST: Ref = Ref { node: 0, port: 0 };

const LAST: Ref = Ref {
    node: 18446744073709551615,
    port: 4294967295,
};

/// A port that controls name.
const CONTROL: Ref = Ref { node: 3, port: 1 };

/// The faults that a Stop may have, in the order of their text.
const FAULTS: [Fault; 12] = [
    Fault::Raised(Kind::NameError, 6),
    Fault::Raised(Kind::UnboundLocalError, 6),
    Fault::Raised(Kind::TypeError, 6),
    Fault::Raised(Kind::ValueError, 6),
    Fault::Raised(Kind::IndexError, 6),
    Fault::Raised(Kind::ZeroDivisionError, 6),
    Fault::Raised(Kind::AssertionError, 6),
    Fault::Limit(Limit::Turn, 6),
    Fault::Limit(Limit::Depth, 6),
    Fault::Limit(Limit::Int, 6),
    Fault::Limit(Limit::Size, 6),
    Fault::Limit(Limit::Outside, 6),
];

fn node(id: u64, line: u32, work: Work) -> Node {
    Node {
        id,
        line,
        depth: 9,
        routine: 8,
        work,
    }
}

// The numbers from 0 on, as known arguments.
fn numbers(alloc: Global, count: u32) -> Result<List<Arg>, NoMemory> {
    let mut args = List::new(alloc);
    for n in 0..count {
        args.add(Arg::Known(Value::Int(i128::from(n))))?;
    }
    Ok(args)
}

// An operator on the numbers 0 and 1.
pub(super) fn operator(alloc: Global, op: OpCode) -> Result<List<Node>, NoMemory> {
    let args = numbers(alloc, 2)?;
    let mut nodes = List::new(alloc);
    nodes.add(node(7, 3, Work::Op { op, args }))?;
    Ok(nodes)
}

// The module and two functions.
pub(super) fn routines(alloc: Global) -> Result<List<Routine>, NoMemory> {
    let mut routines = List::new(alloc);
    for name in ["__main__", "half", "größe"] {
        routines.add(routine(alloc, name)?)?;
    }
    Ok(routines)
}

fn routine(alloc: Global, name: &str) -> Result<Routine, NoMemory> {
    Ok(Routine {
        name: Text::of(alloc, name)?,
        line: 1,
        pure: false,
        unfolded: false,
        params: 0,
        slots: List::new(alloc),
    })
}

fn text(alloc: Global, text: &str) -> Result<Arg, NoMemory> {
    Ok(Arg::Known(Value::Text(Text::of(alloc, text)?)))
}

fn one(alloc: Global, arg: Arg) -> Result<List<Arg>, NoMemory> {
    let mut args = List::new(alloc);
    args.add(arg)?;
    Ok(args)
}

// `(1, ('x',))`
fn nested(alloc: Global) -> Result<Arg, NoMemory> {
    let mut inner = List::new(alloc);
    inner.add(Value::Text(Text::of(alloc, "x")?))?;
    let mut outer = List::new(alloc);
    outer.add(Value::Int(1))?;
    outer.add(Value::Tuple(inner))?;
    Ok(Arg::Known(Value::Tuple(outer)))
}

// An argument of each kind of value, and what is unbound.
fn values(alloc: Global) -> Result<List<Arg>, NoMemory> {
    let mut args = List::new(alloc);
    args.add(text(alloc, "a\nb \"c\"")?)?;
    args.add(text(alloc, "it's")?)?;
    args.add(text(alloc, "é\u{a0}")?)?;
    args.add(nested(alloc)?)?;
    args.add(Arg::Known(Value::None))?;
    args.add(Arg::Known(Value::Bool(true)))?;
    args.add(Arg::Known(Value::Int(-7)))?;
    args.add(Arg::Unbound)?;
    Ok(args)
}

pub(super) fn leaves(alloc: Global) -> Result<List<Node>, NoMemory> {
    let mut nodes = List::new(alloc);
    let (arg, kind) = (Arg::Slot(LAST), Kind::NameError);
    nodes.add(node(0, 1, Work::Read { arg, kind }))?;
    let args = one(alloc, Arg::From(FIRST))?;
    nodes.add(node(1, 2, Work::Call { func: 1, args }))?;
    let args = List::new(alloc);
    nodes.add(node(2, 2, Work::Run { func: 2, args }))?;
    nodes.add(node(3, 3, Work::Print(List::new(alloc))))?;
    nodes.add(node(4, 4, Work::Print(values(alloc)?)))?;
    let args = one(alloc, Arg::Known(Value::Tuple(List::new(alloc))))?;
    nodes.add(node(LAST.node, LAST.port, Work::Print(args)))?;
    Ok(nodes)
}

pub(super) fn stops(alloc: Global) -> Result<List<Node>, NoMemory> {
    let mut nodes = List::new(alloc);
    for fault in &FAULTS {
        nodes.add(node(5, 6, Work::Stop(*fault)))?;
    }
    Ok(nodes)
}

// A frame that names a value.
fn rest(alloc: Global) -> Result<Rest, NoMemory> {
    let mut rest = List::new(alloc);
    rest.add(Frame::Again {
        stmt: 1,
        turns: 2,
        over: Arg::Known(Value::Int(77)),
    })?;
    Ok(rest)
}

pub(super) fn composites(alloc: Global) -> Result<List<Node>, NoMemory> {
    let mut nodes = List::new(alloc);
    nodes.add(node(6, 7, cond(alloc)?))?;
    nodes.add(node(6, 7, while_loop(alloc)?))?;
    nodes.add(node(6, 7, for_loop(alloc)?))?;
    nodes.add(node(6, 7, pick(alloc)?))?;
    let args = one(alloc, Arg::From(CONTROL))?;
    nodes.add(node(6, 7, Work::Enter { func: 1, args }))?;
    Ok(nodes)
}

fn cond(alloc: Global) -> Result<Work, NoMemory> {
    let rest = rest(alloc)?;
    let env = numbers(alloc, 2)?;
    Ok(Work::Cond {
        test: Arg::From(CONTROL),
        stmt: 4,
        arm: 5,
        rest,
        env,
    })
}

fn while_loop(alloc: Global) -> Result<Work, NoMemory> {
    let rest = rest(alloc)?;
    let env = numbers(alloc, 2)?;
    Ok(Work::While {
        test: Arg::Known(Value::Bool(true)),
        stmt: 4,
        turns: 5,
        rest,
        env,
    })
}

fn for_loop(alloc: Global) -> Result<Work, NoMemory> {
    let rest = rest(alloc)?;
    let env = numbers(alloc, 2)?;
    Ok(Work::For {
        over: Arg::Slot(CONTROL),
        stmt: 4,
        turns: 5,
        rest,
        env,
    })
}

fn pick(alloc: Global) -> Result<Work, NoMemory> {
    let env = numbers(alloc, 2)?;
    Ok(Work::Pick {
        test: Arg::From(CONTROL),
        yes: Side::Expr(3),
        no: Side::Tail {
            expr: 4,
            member: 5,
            left: Arg::Unbound,
        },
        env,
    })
}
