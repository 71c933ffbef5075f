//! Copies of nodes, which share lists and values: neither is walked.
ghost use Rattle.std.specs.Prelude.{◌≡◌, IfOk};
ghost use Rattle.pyd_ir.specs.declared.work.Work.TheVariants as work;

use pyd_ir::{Arg, Node, Rest, Side, Work};
use pyd_value::{List, NoMemory};
use std::alloc::Global;

/// A copy of a node.
pub(crate) fn copy_node(alloc: Global, node: &Node) -> Result<Node, NoMemory>
    ensures { IfOk result (λ copy. copy ≡ node.now) }
{
    Ok(Node {
        id: node.id,
        line: node.line,
        depth: node.depth,
        routine: node.routine,
        work: copy_work(alloc, &node.work)?,
    })
}

fn copy_work(alloc: Global, work: &Work) -> Result<Work, NoMemory>
    ensures { IfOk result (λ copy. copy ≡ work.now) }
{
    match work {
        Work::Op { op, args } => Ok(Work::Op {
            op: *op,
            args: args.try_clone()?,
        }),
        Work::Read { arg, kind } => Ok(Work::Read {
            arg: arg.try_copy(alloc)?,
            kind: *kind,
        }),
        Work::Call { func, args } => Ok(Work::Call {
            func: *func,
            args: args.try_clone()?,
        }),
        Work::Stop(fault) => Ok(Work::Stop(*fault)),
        Work::Print(args) => Ok(Work::Print(args.try_clone()?)),
        Work::Run { func, args } => Ok(Work::Run {
            func: *func,
            args: args.try_clone()?,
        }),
        Work::Cond {
            test,
            stmt,
            arm,
            rest,
            env,
        } => copy_cond(alloc, test, *stmt, *arm, rest, env),
        Work::While {
            test,
            stmt,
            turns,
            rest,
            env,
        } => copy_while(alloc, test, *stmt, *turns, rest, env),
        Work::For {
            over,
            stmt,
            turns,
            rest,
            env,
        } => copy_for(alloc, over, *stmt, *turns, rest, env),
        Work::Pick { test, yes, no, env } => copy_pick(alloc, test, yes, no, env),
        Work::Enter { func, args } => Ok(Work::Enter {
            func: *func,
            args: args.try_clone()?,
        }),
    }
}

fn copy_cond(
    alloc: Global,
    test: &Arg,
    stmt: u32,
    arm: u32,
    rest: &Rest,
    env: &List<Arg>,
) -> Result<Work, NoMemory>
    ensures { IfOk result (λ copy. copy ≡ work.Cond test.now stmt arm rest.now env.now) }
{
    let rest = rest.try_clone()?;
    let env = env.try_clone()?;
    Ok(Work::Cond {
        test: test.try_copy(alloc)?,
        stmt,
        arm,
        rest,
        env,
    })
}

fn copy_while(
    alloc: Global,
    test: &Arg,
    stmt: u32,
    turns: u64,
    rest: &Rest,
    env: &List<Arg>,
) -> Result<Work, NoMemory>
    ensures { IfOk result (λ copy. copy ≡ work.While test.now stmt turns rest.now env.now) }
{
    let rest = rest.try_clone()?;
    let env = env.try_clone()?;
    Ok(Work::While {
        test: test.try_copy(alloc)?,
        stmt,
        turns,
        rest,
        env,
    })
}

fn copy_for(
    alloc: Global,
    over: &Arg,
    stmt: u32,
    turns: u64,
    rest: &Rest,
    env: &List<Arg>,
) -> Result<Work, NoMemory>
    ensures { IfOk result (λ copy. copy ≡ work.For over.now stmt turns rest.now env.now) }
{
    let rest = rest.try_clone()?;
    let env = env.try_clone()?;
    Ok(Work::For {
        over: over.try_copy(alloc)?,
        stmt,
        turns,
        rest,
        env,
    })
}

fn copy_pick(
    alloc: Global,
    test: &Arg,
    yes: &Side,
    no: &Side,
    env: &List<Arg>,
) -> Result<Work, NoMemory>
    ensures { IfOk result (λ copy. copy ≡ work.Pick test.now yes.now no.now env.now) }
{
    let env = env.try_clone()?;
    let test = test.try_copy(alloc)?;
    match copy_side(alloc, yes) {
        Ok(yes) => match copy_side(alloc, no) {
            Ok(no) => Ok(Work::Pick { test, yes, no, env }),
            Err(NoMemory) => {
                drop(test);
                drop(yes);
                Err(NoMemory)
            }
        },
        Err(NoMemory) => {
            drop(test);
            Err(NoMemory)
        }
    }
}

fn copy_side(alloc: Global, side: &Side) -> Result<Side, NoMemory>
    ensures { IfOk result (λ copy. copy ≡ side.now) }
{
    match side {
        Side::Arg(arg) => Ok(Side::Arg(arg.try_copy(alloc)?)),
        Side::Expr(expr) => Ok(Side::Expr(*expr)),
        Side::Tail { expr, member, left } => Ok(Side::Tail {
            expr: *expr,
            member: *member,
            left: left.try_copy(alloc)?,
        }),
    }
}
