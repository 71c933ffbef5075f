//! The numbers of the nodes that a node names.
ghost use Rattle.std.specs.Prelude.{[], ◌∷◌, ◌++◌, OnOk};
ghost use Rattle.std.specs.List.{flat_map};
ghost use Rattle.pyd_ir.specs.Arguments.{rest_arguments, side_arguments};
ghost use Rattle.pyd_lineage.specs.Lineage.{named_by, named_nodes};
ghost use Rattle.pyd_lineage.specs.Marking.{Adds};

use crate::numbers::add_number;
use pyd_ir::{Arg, Frame, Side, Work};
use pyd_value::NoMemory;
use std::collections::BTreeSet;

/// Puts into the set what the arguments in all fields of a node name.
pub(crate) fn add_named(set: &mut BTreeSet<u64>, work: &Work) -> Result<(), NoMemory>
    ensures { OnOk result (Adds set.old set.new (named_nodes work.now)) }
{
    match work {
        Work::Op { args, .. } => add_arguments(set, args.as_slice()),
        Work::Read { arg, .. } => add_argument(set, arg),
        Work::Call { args, .. } => add_arguments(set, args.as_slice()),
        Work::Stop(_) => Ok(()),
        Work::Print(args) => add_arguments(set, args.as_slice()),
        Work::Run { args, .. } => add_arguments(set, args.as_slice()),
        Work::Cond {
            test,
            rest,
            env,
            ..
        } => { add_going_on(set, test, rest.as_slice(), env.as_slice()) }
        Work::While {
            test,
            rest,
            env,
            ..
        } => { add_going_on(set, test, rest.as_slice(), env.as_slice()) }
        Work::For {
            over,
            rest,
            env,
            ..
        } => { add_going_on(set, over, rest.as_slice(), env.as_slice()) }
        Work::Pick { test, yes, no, env } => add_choice(set, test, yes, no, env.as_slice()),
        Work::Enter { args, .. } => add_arguments(set, args.as_slice()),
    }
}

/// Of a composite that goes on with a rest.
fn add_going_on(
    set: &mut BTreeSet<u64>,
    control: &Arg,
    rest: &[Frame],
    env: &[Arg],
) -> Result<(), NoMemory>
    ensures { OnOk result (Adds set.old set.new
        (flat_map named_by (control.now ∷ (rest_arguments rest.now ++ env.now)))) }
{
    add_argument(set, control)?;
    add_frames(set, rest)?;
    add_arguments(set, env)
}

/// Of a choice within an expression.
fn add_choice(
    set: &mut BTreeSet<u64>,
    test: &Arg,
    yes: &Side,
    no: &Side,
    env: &[Arg],
) -> Result<(), NoMemory>
    ensures { OnOk result (Adds set.old set.new
        (flat_map named_by (test.now
        ∷ (side_arguments yes.now ++ (side_arguments no.now ++ env.now))))) }
{
    add_argument(set, test)?;
    add_side(set, yes)?;
    add_side(set, no)?;
    add_arguments(set, env)
}

fn add_side(set: &mut BTreeSet<u64>, side: &Side) -> Result<(), NoMemory>
    ensures { OnOk result (Adds set.old set.new (flat_map named_by (side_arguments side.now))) }
{
    match side {
        Side::Arg(arg) => add_argument(set, arg),
        Side::Expr(_) => Ok(()),
        Side::Tail { left, .. } => add_argument(set, left),
    }
}

fn add_frames(set: &mut BTreeSet<u64>, rest: &[Frame]) -> Result<(), NoMemory>
    ensures { OnOk result (Adds set.old set.new (flat_map named_by (rest_arguments rest.now))) }
{
    for frame in rest {
        match frame {
            Frame::After(_) => {}
            Frame::Again { over, .. } => add_argument(set, over)?,
        }
    }
    Ok(())
}

fn add_arguments(set: &mut BTreeSet<u64>, args: &[Arg]) -> Result<(), NoMemory>
    ensures { OnOk result (Adds set.old set.new (flat_map named_by args.now)) }
{
    for arg in args {
        add_argument(set, arg)?;
    }
    Ok(())
}

fn add_argument(set: &mut BTreeSet<u64>, arg: &Arg) -> Result<(), NoMemory>
    ensures { OnOk result (Adds set.old set.new (flat_map named_by (arg.now ∷ []))) }
{
    match arg {
        Arg::From(at) => add_number(set, at.node),
        Arg::Slot(at) => add_number(set, at.node),
        Arg::Known(_) => Ok(()),
        Arg::Unbound => Ok(()),
    }
}
