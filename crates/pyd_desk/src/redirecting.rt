//! Nodes behind a composite, once a piece has taken its place.
ghost use Rattle.std.specs.Prelude.{◌≡◌, IfOk};
ghost use Rattle.pyd_ir.specs.declared.work.Frame.TheVariants as frame;
ghost use Rattle.pyd_ir.specs.declared.work.Work.TheVariants as work;
ghost use Rattle.pyd_refine.specs.Redirecting as spec;

use pyd_ir::{Arg, Frame, Node, Rest, Side, Work};
use pyd_value::{List, NoMemory};
use std::alloc::Global;

/// A composite that is gone, and the arguments in the place of its ports.
#[derive(Clone, Copy)]
pub(crate) struct Images<'a> {
    pub(crate) alloc: Global,
    pub(crate) id: u64,
    pub(crate) ports: &'a [Arg],
}

impl<'a> Images<'a> {
    /// The node, which doesn't name the composite any more.
    pub(crate) fn node(&self, node: &Node) -> Result<Node, NoMemory>
        ensures { IfOk result (λ n.
            n ≡ spec.redirect_node self.now.id self.now.ports.now node.now) }
    {
        Ok(Node {
            id: node.id,
            line: node.line,
            depth: node.depth,
            routine: node.routine,
            work: self.work(&node.work)?,
        })
    }

    fn work(&self, work: &Work) -> Result<Work, NoMemory>
        ensures { IfOk result (λ w.
            w ≡ spec.redirect_work self.now.id self.now.ports.now work.now) }
    {
        match work {
            Work::Op { op, args } => Ok(Work::Op {
                op: *op,
                args: self.args(args.as_slice())?,
            }),
            Work::Read { arg, kind } => Ok(Work::Read {
                arg: self.arg(arg)?,
                kind: *kind,
            }),
            Work::Call { func, args } => Ok(Work::Call {
                func: *func,
                args: self.args(args.as_slice())?,
            }),
            Work::Stop(fault) => Ok(Work::Stop(*fault)),
            Work::Print(args) => Ok(Work::Print(self.args(args.as_slice())?)),
            Work::Run { func, args } => Ok(Work::Run {
                func: *func,
                args: self.args(args.as_slice())?,
            }),
            Work::Cond {
                test,
                stmt,
                arm,
                rest,
                env,
            } => self.cond(test, *stmt, *arm, rest.as_slice(), env.as_slice()),
            Work::While {
                test,
                stmt,
                turns,
                rest,
                env,
            } => self.while_(test, *stmt, *turns, rest.as_slice(), env.as_slice()),
            Work::For {
                over,
                stmt,
                turns,
                rest,
                env,
            } => self.for_(over, *stmt, *turns, rest.as_slice(), env.as_slice()),
            Work::Pick { test, yes, no, env } => self.pick(test, yes, no, env.as_slice()),
            Work::Enter { func, args } => Ok(Work::Enter {
                func: *func,
                args: self.args(args.as_slice())?,
            }),
        }
    }

    fn cond(
        &self,
        test: &Arg,
        stmt: u32,
        arm: u32,
        rest: &[Frame],
        env: &[Arg],
    ) -> Result<Work, NoMemory>
        ensures { IfOk result (λ w. w ≡ spec.redirect_work self.now.id self.now.ports.now
            (work.Cond test.now stmt arm rest.now env.now)) }
    {
        let rest = self.rest(rest)?;
        let env = self.args(env)?;
        Ok(Work::Cond {
            test: self.arg(test)?,
            stmt,
            arm,
            rest,
            env,
        })
    }

    fn while_(
        &self,
        test: &Arg,
        stmt: u32,
        turns: u64,
        rest: &[Frame],
        env: &[Arg],
    ) -> Result<Work, NoMemory>
        ensures { IfOk result (λ w. w ≡ spec.redirect_work self.now.id self.now.ports.now
            (work.While test.now stmt turns rest.now env.now)) }
    {
        let rest = self.rest(rest)?;
        let env = self.args(env)?;
        Ok(Work::While {
            test: self.arg(test)?,
            stmt,
            turns,
            rest,
            env,
        })
    }

    fn for_(
        &self,
        over: &Arg,
        stmt: u32,
        turns: u64,
        rest: &[Frame],
        env: &[Arg],
    ) -> Result<Work, NoMemory>
        ensures { IfOk result (λ w. w ≡ spec.redirect_work self.now.id self.now.ports.now
            (work.For over.now stmt turns rest.now env.now)) }
    {
        let rest = self.rest(rest)?;
        let env = self.args(env)?;
        Ok(Work::For {
            over: self.arg(over)?,
            stmt,
            turns,
            rest,
            env,
        })
    }

    fn pick(&self, test: &Arg, yes: &Side, no: &Side, env: &[Arg]) -> Result<Work, NoMemory>
        ensures { IfOk result (λ w. w ≡ spec.redirect_work self.now.id self.now.ports.now
            (work.Pick test.now yes.now no.now env.now)) }
    {
        let env = self.args(env)?;
        let test = self.arg(test)?;
        match self.side(yes) {
            Ok(yes) => match self.side(no) {
                Ok(no) => Ok(Work::Pick { test, yes, no, env }),
                Err(NoMemory) => {
                    drop(test);
                    drop(yes);
                    Err(NoMemory)
                }
            },
            Err(NoMemory) => {
                drop(test);
                Err(NoMemory)
            }
        }
    }

    fn side(&self, side: &Side) -> Result<Side, NoMemory>
        ensures { IfOk result (λ s.
            s ≡ spec.redirect_side self.now.id self.now.ports.now side.now) }
    {
        match side {
            Side::Arg(arg) => Ok(Side::Arg(self.arg(arg)?)),
            Side::Expr(expr) => Ok(Side::Expr(*expr)),
            Side::Tail { expr, member, left } => Ok(Side::Tail {
                expr: *expr,
                member: *member,
                left: self.arg(left)?,
            }),
        }
    }

    fn rest(&self, rest: &[Frame]) -> Result<Rest, NoMemory>
        ensures { IfOk result (λ frames.
            frames ≡ spec.redirect_rest self.now.id self.now.ports.now rest.now) }
    {
        let mut frames = List::new(self.alloc);
        for frame in rest {
            frames.add(self.frame(frame)?)?;
        }
        Ok(frames)
    }

    fn frame(&self, frame: &Frame) -> Result<Frame, NoMemory>
        ensures { IfOk result (λ f.
            f ≡ spec.redirect_frame self.now.id self.now.ports.now frame.now) }
    {
        match frame {
            Frame::After(stmt) => Ok(Frame::After(*stmt)),
            Frame::Again { stmt, turns, over } => Ok(Frame::Again {
                stmt: *stmt,
                turns: *turns,
                over: self.arg(over)?,
            }),
        }
    }

    fn args(&self, args: &[Arg]) -> Result<List<Arg>, NoMemory>
        ensures { IfOk result (λ list.
            list ≡ spec.redirect_all self.now.id self.now.ports.now args.now) }
    {
        let mut list = List::new(self.alloc);
        for arg in args {
            list.add(self.arg(arg)?)?;
        }
        Ok(list)
    }

    fn arg(&self, arg: &Arg) -> Result<Arg, NoMemory>
        ensures { IfOk result (λ a.
            a ≡ spec.redirect self.now.id self.now.ports.now arg.now) }
    {
        match arg {
            Arg::From(at) => {
                if at.node == self.id {
                    self.image(at.port)
                } else {
                    Ok(Arg::From(*at))
                }
            }
            Arg::Slot(at) => {
                if at.node == self.id {
                    self.image(at.port)
                } else {
                    Ok(Arg::Slot(*at))
                }
            }
            Arg::Known(_) | Arg::Unbound => arg.try_copy(self.alloc),
        }
    }

    /// The argument in the place of a port, unbound past the last one.
    #[tactic(auto, using(crate::proofs::Images::image_within, crate::proofs::Images::image_past))]
    fn image(&self, port: u32) -> Result<Arg, NoMemory>
        ensures { IfOk result (λ a. a ≡ spec.image self.now.ports.now port) }
    {
        match self.ports.get(port as usize) {
            Some(arg) => arg.try_copy(self.alloc),
            None => Ok(Arg::Unbound),
        }
    }
}
