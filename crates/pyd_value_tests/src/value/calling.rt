//! The caller of `pyd_value` makes a pair.

use crate::callers::pair;
use pyd_value::{Value, nest, size};
use std::test::Fail;

#[test]
fn a_pair_has_both_values(rt: HostRuntime) -> Result<(), Fail> {
    let pair = pair(rt.alloc(), &Value::Int(1), &Value::None)?;
    assert_eq!(rt; (size(&pair), nest(&pair)), (3, 1));
    Ok(())
}
