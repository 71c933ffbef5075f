//! The caller of `pyd_ops` compares a sum.

use super::LINE;
use crate::callers::sum_is_less;
use pyd_value::{Outcome, Value};
use std::test::Fail;

#[test]
fn a_caller_is_proved_by_the_clauses(rt: HostRuntime) -> Result<(), Fail> {
    let (one, two) = (Value::Int(1), Value::Bool(true));
    let three = Value::Int(3);
    let less = sum_is_less(rt.alloc(), &one, &two, &three, LINE)?;
    assert_eq!(rt; less, Outcome::Ok(Value::Bool(true)));
    Ok(())
}
