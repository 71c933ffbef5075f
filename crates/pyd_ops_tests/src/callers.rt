//! The caller that the page of `pyd_ops` on calling shows.
ghost use Rattle.pyd_value.specs.declared.operator.BinOp.TheVariants.{Add};
ghost use Rattle.pyd_value.specs.declared.operator.CmpOp.TheVariants.{Lt};
ghost use Rattle.pyd_ops.specs.Answer.{Answers};
ghost use Rattle.pyd_ops.specs.Calls.{and_then};
ghost use Rattle.pyd_ops.specs.Comparing.{compare};
ghost use Rattle.pyd_ops.specs.Operators.{binary};

use pyd_ops::{binary, compare};
use pyd_value::{BinOp, CmpOp, NoMemory, Outcome, Value};
use std::alloc::Global;

/// The value of `a + b < c`, or the first fault.
pub fn sum_is_less(
    alloc: Global,
    a: &Value,
    b: &Value,
    c: &Value,
    at: u32,
) -> Result<Outcome, NoMemory>
    ensures { Answers result (and_then (binary Add a.now b.now at) (λ v. compare Lt v c.now at)) }
{
    match binary(alloc, BinOp::Add, a, b, at)? {
        Outcome::Ok(sum) => {
            let less = compare(CmpOp::Lt, &sum, c, at);
            drop(sum);
            Ok(less)
        }
        Outcome::Fault(fault) => Ok(Outcome::Fault(fault)),
    }
}
