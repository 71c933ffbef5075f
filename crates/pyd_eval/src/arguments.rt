//! Members of tuples and arguments of calls, from the left.
ghost use Rattle.std.specs.Prelude.{◌≡◌, ◌∷◌, [], ◌++◌, map, IfOk, OnOk, Some};
ghost use Rattle.pyd_eval.specs.Frames.{evaluations};
ghost use Rattle.pyd_eval.specs.Given.{value_of, Does};
ghost use Rattle.pyd_eval.specs.Passed.{passed, values_in};

use crate::activation::Activation;
use crate::evaluate::eval;
use crate::got::Got;
use pyd_tree::Expr;
use pyd_value::{Fault, List, NoMemory, Text, Value};
use std::alloc::Global;

/// The values of expressions.
#[cycle(run)]
pub(crate) fn eval_all<'p: 'a, 'a>(
    on: &Activation<'p>,
    es: &'a [Expr],
    line: u32,
    slots: &'a [Option<Value>],
    out: &mut List<Text>,
) -> Result<Result<List<Value>, Fault>, NoMemory>
    ensures { IfOk result (λ got.
        Does out.old (evaluations on.now es.now line slots.now) out.new got) }
{
    let mut values = List::new(on.alloc);
    for e in es {
        match eval(on, e, line, slots, out)? {
            Ok(got) => add(on.alloc, &mut values, got)?,
            Err(fault) => return Ok(Err(fault)),
        }
    }
    Ok(Ok(values))
}

/// The values of arguments, in the first slots of the function that is called.
#[cycle(run)]
pub(crate) fn eval_arguments<'p: 'a, 'a>(
    on: &Activation<'p>,
    es: &'a [Expr],
    line: u32,
    slots: &'a [Option<Value>],
    out: &mut List<Text>,
) -> Result<Result<Vec<Option<Value>>, Fault>, NoMemory>
    ensures meaning { IfOk result (λ got.
        Does out.old (evaluations on.now es.now line slots.now) out.new (passed got)) }
    ensures full { IfOk result (λ got.
        IfOk got (λ taken. taken.items ≡ map Some (values_in taken.items))) }
{
    let mut taken = Vec::new(on.alloc);
    for e in es {
        match eval(on, e, line, slots, out)? {
            Ok(got) => add_slot(on.alloc, &mut taken, got)?,
            Err(fault) => return Ok(Err(fault)),
        }
    }
    Ok(Ok(taken))
}

fn add(alloc: Global, values: &mut List<Value>, got: Got<'_>) -> Result<(), NoMemory>
    ensures { OnOk result (values.new ≡ values.old ++ value_of got.entry ∷ []) }
{
    let value = got.into_value(alloc)?;
    values.add(value)
}

pub(crate) fn add_slot(
    alloc: Global,
    taken: &mut Vec<Option<Value>>,
    got: Got<'_>,
) -> Result<(), NoMemory>
    ensures { OnOk result (taken.new.items ≡ taken.old.items ++ Some (value_of got.entry) ∷ []) }
{
    let value = got.into_value(alloc)?;
    match taken.push(Some(value)) {
        Ok(()) => Ok(()),
        Err(refused) => {
            drop(refused);
            Err(NoMemory)
        }
    }
}
