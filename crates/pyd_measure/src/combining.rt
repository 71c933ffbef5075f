//! What the measures of parts make together.
ghost use Rattle.std.specs.Prelude.{◌≡◌};
ghost use Rattle.pyd_measure.specs.Combining as spec;

use crate::measures::{Measure, Shape};
use crate::parts::{
    above, compares_in, greatest_in, joined, links_in, members_in, nesting_in, shape_in,
    shape_of_tuple, suffix_in, suffixes_in, tuple_nesting,
};

/// An expression as it is.
fn alone(part: Measure) -> Measure
    ensures { result ≡ spec.alone part }
{
    Measure::Expr {
        nesting: nesting_in(part),
        shape: shape_in(part),
    }
}

/// An expression of parts whose greatest nesting is this.
fn over(nesting: u8) -> Measure
    ensures { result ≡ spec.over nesting }
{
    Measure::Expr {
        nesting: above(nesting),
        shape: Shape::Other,
    }
}

/// A test, and those behind its comma.
pub fn tests(first: Measure, rest: Measure) -> Measure
    ensures { result ≡ spec.tests first rest }
{
    match rest {
        Measure::Many { nesting, members } => Measure::Many {
            nesting: nesting_in(first).max(nesting),
            members: joined(shape_in(first), members),
        },
        _ => alone(first),
    }
}

/// The expressions behind a comma.
pub fn comma(tests: Measure) -> Measure
    ensures { result ≡ spec.comma tests }
{
    Measure::Many {
        nesting: greatest_in(tests),
        members: members_in(tests),
    }
}

/// An expression, with its condition where it has one.
pub fn test(first: Measure, condition: Measure) -> Measure
    ensures { result ≡ spec.test first condition }
{
    match condition {
        Measure::Condition(nesting) => over(nesting_in(first).max(nesting)),
        _ => alone(first),
    }
}

/// A condition and the other side.
pub fn condition(test: Measure, other: Measure) -> Measure
    ensures { result ≡ spec.condition test other }
{
    Measure::Condition(nesting_in(test).max(nesting_in(other)))
}

/// One operand, or several joined by one word.
pub fn junction(first: Measure, rest: Measure) -> Measure
    ensures { result ≡ spec.junction first rest }
{
    match rest {
        Measure::Many { nesting, .. } => over(nesting_in(first).max(nesting)),
        _ => alone(first),
    }
}

/// An operand behind its word, and those behind it.
pub fn member(operand: Measure, rest: Measure) -> Measure
    ensures { result ≡ spec.member operand rest }
{
    Measure::Many {
        nesting: nesting_in(operand).max(greatest_in(rest)),
        members: joined(shape_in(operand), members_in(rest)),
    }
}

/// An operand behind its sign or `not`.
pub fn unary(operand: Measure) -> Measure
    ensures { result ≡ spec.unary operand }
{
    over(nesting_in(operand))
}

/// One operand, or a comparison.
pub fn compare(first: Measure, rest: Measure) -> Measure
    ensures { result ≡ spec.compare first rest }
{
    match rest {
        Measure::Compares(nesting) => over(nesting_in(first).max(nesting)),
        _ => alone(first),
    }
}

/// An operand behind its comparison, and those behind it.
pub fn compared(operand: Measure, rest: Measure) -> Measure
    ensures { result ≡ spec.compared operand rest }
{
    Measure::Compares(nesting_in(operand).max(compares_in(rest)))
}

/// An operand and the operators of one level behind it.
pub fn chain(first: Measure, rest: Measure) -> Measure
    ensures { result ≡ spec.chain first rest }
{
    match rest {
        Measure::Links(nesting) => over(nesting_in(first).max(nesting)),
        _ => alone(first),
    }
}

/// An operand behind its operator, and those behind it.
pub fn link(operand: Measure, rest: Measure) -> Measure
    ensures { result ≡ spec.link operand rest }
{
    Measure::Links(nesting_in(operand).max(links_in(rest)))
}

/// A base, with its exponent where it has one.
pub fn power(base: Measure, exponent: Measure) -> Measure
    ensures { result ≡ spec.power base exponent }
{
    match exponent {
        Measure::Expr { nesting, .. } => over(nesting_in(base).max(nesting)),
        _ => alone(base),
    }
}

/// An atom, with its suffixes where it has some.
pub fn suffixed(base: Measure, suffixes: Measure) -> Measure
    ensures { result ≡ spec.suffixed base suffixes }
{
    match suffixes {
        Measure::Suffixes(nesting) => over(nesting_in(base).max(nesting)),
        _ => alone(base),
    }
}

/// An index or a slice, and those behind it.
pub fn suffix(sub: Measure, rest: Measure) -> Measure
    ensures { result ≡ spec.suffix sub rest }
{
    Measure::Suffixes(suffix_in(sub).max(suffixes_in(rest)))
}

/// An index, or a slice with a lower bound.
pub fn sub(test: Measure, bound: Measure) -> Measure
    ensures { result ≡ spec.sub test bound }
{
    match bound {
        Measure::Bound(nesting) => Measure::Suffix(nesting_in(test).max(nesting)),
        _ => Measure::Suffix(nesting_in(test)),
    }
}

/// A slice without a lower bound.
pub fn upper(test: Measure) -> Measure
    ensures { result ≡ spec.upper test }
{
    Measure::Suffix(nesting_in(test))
}

/// The upper bound of a slice, or none.
pub fn bound(test: Measure) -> Measure
    ensures { result ≡ spec.bound test }
{
    Measure::Bound(nesting_in(test))
}

/// A name, or a call where there are arguments.
pub fn name(arguments: Measure) -> Measure
    ensures { result ≡ spec.name arguments }
{
    match arguments {
        Measure::Args(nesting) => over(nesting),
        _ => Measure::Expr {
            nesting: 0,
            shape: Shape::Name,
        },
    }
}

/// A literal.
pub fn literal() -> Measure
    ensures { result ≡ spec.literal }
{
    Measure::Expr {
        nesting: 0,
        shape: Shape::Other,
    }
}

/// What stands in parentheses.
pub fn group(tests: Measure) -> Measure
    ensures { result ≡ spec.group tests }
{
    Measure::Expr {
        nesting: tuple_nesting(tests),
        shape: shape_of_tuple(tests),
    }
}

/// The arguments of a call.
pub fn arguments(tests: Measure) -> Measure
    ensures { result ≡ spec.arguments tests }
{
    Measure::Args(greatest_in(tests))
}

/// The right side of an assignment.
pub fn assign(right: Measure) -> Measure
    ensures { result ≡ spec.assign right }
{
    Measure::Assign(tuple_nesting(right))
}

/// The right side of an augmented assignment.
pub fn augment(right: Measure) -> Measure
    ensures { result ≡ spec.augment right }
{
    Measure::Augment(tuple_nesting(right))
}
