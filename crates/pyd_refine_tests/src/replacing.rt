//! A piece in the place of its composite, whose ports no node names any more.

use pyd_ir::{Arg, Frame, Node, Rest, Side, Work};
use pyd_translate::Piece;
use pyd_value::{List, NoMemory};
use std::alloc::Global;

/// Nodes with a piece in the place of the composite of this number.
pub(crate) fn replaced(
    alloc: Global,
    nodes: &[Node],
    id: u64,
    piece: &Piece,
) -> Result<List<Node>, NoMemory> {
    let args = slots_and_value(alloc, piece)?;
    let ports = Ports {
        alloc,
        id,
        args: args.as_slice(),
    };
    let mut list = List::new(alloc);
    for node in nodes {
        if node.id == id {
            add_nodes(&mut list, &ports, piece.nodes.as_slice())?;
        } else {
            list.add(ports.node(node)?)?;
        }
    }
    Ok(list)
}

fn slots_and_value(alloc: Global, piece: &Piece) -> Result<List<Arg>, NoMemory> {
    let mut args = List::new(alloc);
    for arg in piece.env.as_slice() {
        args.add(arg.try_copy(alloc)?)?;
    }
    args.add(piece.value.try_copy(alloc)?)?;
    Ok(args)
}

/// The nodes of a piece don't name the composite: these are copies.
fn add_nodes(list: &mut List<Node>, ports: &Ports<'_>, nodes: &[Node]) -> Result<(), NoMemory> {
    for node in nodes {
        list.add(ports.node(node)?)?;
    }
    Ok(())
}

/// A composite that is gone, and the arguments in the place of its ports.
#[derive(Clone, Copy)]
struct Ports<'a> {
    alloc: Global,
    id: u64,
    args: &'a [Arg],
}

impl<'a> Ports<'a> {
    fn node(&self, node: &Node) -> Result<Node, NoMemory> {
        Ok(Node {
            id: node.id,
            line: node.line,
            depth: node.depth,
            routine: node.routine,
            work: self.work(&node.work)?,
        })
    }

    fn work(&self, work: &Work) -> Result<Work, NoMemory> {
        match work {
            Work::Op { op, args } => Ok(Work::Op {
                op: *op,
                args: self.all(args)?,
            }),
            Work::Read { arg, kind } => Ok(Work::Read {
                arg: self.arg(arg)?,
                kind: *kind,
            }),
            Work::Call { func, args } => Ok(Work::Call {
                func: *func,
                args: self.all(args)?,
            }),
            Work::Stop(fault) => Ok(Work::Stop(*fault)),
            Work::Print(args) => Ok(Work::Print(self.all(args)?)),
            Work::Run { func, args } => Ok(Work::Run {
                func: *func,
                args: self.all(args)?,
            }),
            Work::Cond {
                test,
                stmt,
                arm,
                rest,
                env,
            } => self.cond(test, *stmt, *arm, rest, env),
            Work::While {
                test,
                stmt,
                turns,
                rest,
                env,
            } => self.while_loop(test, *stmt, *turns, rest, env),
            Work::For {
                over,
                stmt,
                turns,
                rest,
                env,
            } => self.for_loop(over, *stmt, *turns, rest, env),
            Work::Pick { test, yes, no, env } => self.pick(test, yes, no, env),
            Work::Enter { func, args } => Ok(Work::Enter {
                func: *func,
                args: self.all(args)?,
            }),
        }
    }

    fn cond(
        &self,
        test: &Arg,
        stmt: u32,
        arm: u32,
        rest: &Rest,
        env: &List<Arg>,
    ) -> Result<Work, NoMemory> {
        let rest = self.rest(rest)?;
        let env = self.all(env)?;
        Ok(Work::Cond {
            test: self.arg(test)?,
            stmt,
            arm,
            rest,
            env,
        })
    }

    fn while_loop(
        &self,
        test: &Arg,
        stmt: u32,
        turns: u64,
        rest: &Rest,
        env: &List<Arg>,
    ) -> Result<Work, NoMemory> {
        let rest = self.rest(rest)?;
        let env = self.all(env)?;
        Ok(Work::While {
            test: self.arg(test)?,
            stmt,
            turns,
            rest,
            env,
        })
    }

    fn for_loop(
        &self,
        over: &Arg,
        stmt: u32,
        turns: u64,
        rest: &Rest,
        env: &List<Arg>,
    ) -> Result<Work, NoMemory> {
        let rest = self.rest(rest)?;
        let env = self.all(env)?;
        Ok(Work::For {
            over: self.arg(over)?,
            stmt,
            turns,
            rest,
            env,
        })
    }

    fn pick(&self, test: &Arg, yes: &Side, no: &Side, env: &List<Arg>) -> Result<Work, NoMemory> {
        let env = self.all(env)?;
        let test = self.arg(test)?;
        match self.side(yes) {
            Ok(yes) => match self.side(no) {
                Ok(no) => Ok(Work::Pick { test, yes, no, env }),
                Err(NoMemory) => {
                    drop(test);
                    drop(yes);
                    Err(NoMemory)
                }
            },
            Err(NoMemory) => {
                drop(test);
                Err(NoMemory)
            }
        }
    }

    fn side(&self, side: &Side) -> Result<Side, NoMemory> {
        match side {
            Side::Arg(arg) => Ok(Side::Arg(self.arg(arg)?)),
            Side::Expr(expr) => Ok(Side::Expr(*expr)),
            Side::Tail { expr, member, left } => Ok(Side::Tail {
                expr: *expr,
                member: *member,
                left: self.arg(left)?,
            }),
        }
    }

    fn rest(&self, rest: &Rest) -> Result<Rest, NoMemory> {
        let mut frames = List::new(self.alloc);
        for frame in rest.as_slice() {
            frames.add(self.frame(frame)?)?;
        }
        Ok(frames)
    }

    fn frame(&self, frame: &Frame) -> Result<Frame, NoMemory> {
        match frame {
            Frame::After(stmt) => Ok(Frame::After(*stmt)),
            Frame::Again { stmt, turns, over } => Ok(Frame::Again {
                stmt: *stmt,
                turns: *turns,
                over: self.arg(over)?,
            }),
        }
    }

    fn all(&self, args: &List<Arg>) -> Result<List<Arg>, NoMemory> {
        let mut list = List::new(self.alloc);
        for arg in args.as_slice() {
            list.add(self.arg(arg)?)?;
        }
        Ok(list)
    }

    fn arg(&self, arg: &Arg) -> Result<Arg, NoMemory> {
        match arg {
            Arg::From(at) | Arg::Slot(at) if at.node == self.id => self.image(at.port),
            Arg::From(_) | Arg::Slot(_) | Arg::Known(_) | Arg::Unbound => {
                arg.try_copy(self.alloc)
            }
        }
    }

    /// The argument in the place of a port, unbound past the last one.
    fn image(&self, port: u32) -> Result<Arg, NoMemory> {
        match self.args.get(port as usize) {
            Some(arg) => arg.try_copy(self.alloc),
            None => Ok(Arg::Unbound),
        }
    }
}
