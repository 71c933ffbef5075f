//! Comparisons and membership (Python Language Reference, sections 6.10.1, "Value comparisons", and
//! 6.10.2, "Membership test operations").
ghost use Rattle.std.specs.Prelude.{◌≡◌};
ghost use Rattle.std.specs.List.{list_any};
ghost use Rattle.pyd_value.specs.Shape.{shape_of};
ghost use Rattle.pyd_value.specs.Comparison.{comparison_of};
ghost use Rattle.pyd_value.specs.Equality.{is_equal};
ghost use Rattle.pyd_value.specs.Order.{ordered};
ghost use Rattle.pyd_ops.specs.Answer.{outcome_of};
ghost use Rattle.pyd_ops.specs.Comparing as spec;

use crate::answer::truth_value;
use pyd_value::{CmpOp, Outcome, Text, Value, equal};
use std::cmp::Ordering;

/// What a comparison gives: a truth value, or `TypeError` where the two have no order or there is
/// no membership.
pub fn compare(op: CmpOp, a: &Value, b: &Value, line: u32) -> Outcome
    ensures { result ≡ outcome_of (spec.compare op a.now b.now line) }
{
    match op {
        CmpOp::Eq => Outcome::Ok(Value::Bool(equal(a, b))),
        CmpOp::Ne => Outcome::Ok(Value::Bool(!equal(a, b))),
        CmpOp::Lt => truth_value(order(a, b).map(|o| o.is_lt()), line),
        CmpOp::Le => truth_value(order(a, b).map(|o| o.is_le()), line),
        CmpOp::Gt => truth_value(order(a, b).map(|o| o.is_gt()), line),
        CmpOp::Ge => truth_value(order(a, b).map(|o| o.is_ge()), line),
        CmpOp::In => truth_value(membership(a, b), line),
        CmpOp::NotIn => truth_value(membership(a, b).map(|b| !b), line),
    }
}

/// How `a` compares with `b` where the two have an order: `None` has none.
pub(crate) fn order(a: &Value, b: &Value) -> Option<Ordering>
    ensures { result ≡ ordered (shape_of a.now) (comparison_of a.now b.now) }
{
    match a {
        Value::None => None,
        _ => pyd_value::compare(a, b),
    }
}

/// What `a in b` gives: whether some member of the tuple `b` equals `a`, or the text `a` is a
/// substring of the text `b`; `TypeError` for other kinds.
pub fn contains(a: &Value, b: &Value, line: u32) -> Outcome
    ensures { result ≡ outcome_of (spec.contains a.now b.now line) }
{
    truth_value(membership(a, b), line)
}

/// Whether `b` has `a`, where there is membership.
fn membership(a: &Value, b: &Value) -> Option<bool>
    ensures { result ≡ spec.membership a.now (shape_of a.now) (shape_of b.now) }
{
    match (a, b) {
        (_, Value::Tuple(members)) => Some(has_member(members.as_slice(), a)),
        (Value::Text(a), Value::Text(b)) => Some(is_substring(a, b)),
        _ => None,
    }
}

fn has_member(members: &[Value], a: &Value) -> bool
    ensures { result ≡ list_any (is_equal a.now) members.now }
{
    for member in members {
        if equal(a, member) {
            return true;
        }
    }
    false
}

fn is_substring(part: &Text, whole: &Text) -> bool
    ensures { result ≡ spec.is_substring part.now whole.now }
{
    whole.as_str().contains(part.as_str())
}
