//! The measure of the parts of a production together, and the nesting of a statement or a header.
ghost use Rattle.std.specs.Prelude.{◌≡◌};
ghost use Rattle.pyd_measure.specs.Measurings as spec;

use crate::combining::{
    arguments, assign, augment, bound, chain, comma, compare, compared, condition, group, junction,
    link, literal, member, name, power, sub, suffix, suffixed, test, tests, unary, upper,
};
use crate::measures::Measure;
use crate::measuring::Measuring;
use crate::parts::counted;
use crate::stack::Stack;

/// The measure of the parts in front together.
pub fn measured(measuring: Measuring, parts: &Stack) -> Measure
    ensures { result ≡ spec.measured measuring parts.now }
{
    match measuring {
        Measuring::Nothing => Measure::Nothing,
        Measuring::Same => parts.at(0),
        Measuring::Second => parts.at(1),
        Measuring::Unmeasured(_) => Measure::Other,
        Measuring::If => Measure::Other,
        Measuring::Elifs => Measure::Other,
        Measuring::While => Measure::Other,
        Measuring::For => Measure::Other,
        Measuring::Simple => Measure::Other,
        Measuring::Jump => Measure::Other,
        Measuring::Return => Measure::Other,
        Measuring::Assert => Measure::Other,
        Measuring::Assign => assign(parts.at(1)),
        Measuring::Augment => augment(parts.at(1)),
        Measuring::Tests => tests(parts.at(0), parts.at(1)),
        Measuring::Comma => comma(parts.at(1)),
        Measuring::Test => test(parts.at(0), parts.at(1)),
        Measuring::Condition => condition(parts.at(1), parts.at(3)),
        Measuring::Junction => junction(parts.at(0), parts.at(1)),
        Measuring::Member => member(parts.at(1), parts.at(2)),
        Measuring::Unary => unary(parts.at(1)),
        Measuring::Compare => compare(parts.at(0), parts.at(1)),
        Measuring::Compared => compared(parts.at(1), parts.at(2)),
        Measuring::NotIn => compared(parts.at(2), parts.at(3)),
        Measuring::Chain => chain(parts.at(0), parts.at(1)),
        Measuring::Link => link(parts.at(1), parts.at(2)),
        Measuring::Power => power(parts.at(0), parts.at(1)),
        Measuring::Suffixed => suffixed(parts.at(0), parts.at(1)),
        Measuring::Suffix => suffix(parts.at(1), parts.at(3)),
        Measuring::Sub => sub(parts.at(0), parts.at(1)),
        Measuring::Upper => upper(parts.at(1)),
        Measuring::Bound => bound(parts.at(1)),
        Measuring::Name => name(parts.at(1)),
        Measuring::Literal => literal(),
        Measuring::Group => group(parts.at(1)),
        Measuring::Arguments => arguments(parts.at(1)),
    }
}

/// The nesting of a statement or a header without the suites round it.
pub fn header_nesting(measuring: Measuring, parts: &Stack) -> Option<u8>
    ensures { result ≡ spec.header_nesting measuring parts.now }
{
    match measuring {
        Measuring::If => Some(counted(parts.at(1))),
        Measuring::Elifs => Some(counted(parts.at(1))),
        Measuring::While => Some(counted(parts.at(1))),
        Measuring::For => Some(counted(parts.at(4))),
        Measuring::Simple => Some(counted(parts.at(0)).max(counted(parts.at(1)))),
        Measuring::Jump => Some(0),
        Measuring::Return => Some(counted(parts.at(1))),
        Measuring::Assert => Some(counted(parts.at(1)).max(counted(parts.at(2)))),
        _ => None,
    }
}
