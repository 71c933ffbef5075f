//! What is taken from the measure of a part.
ghost use Rattle.std.specs.Prelude.{◌≡◌};
ghost use Rattle.pyd_measure.specs.Parts as spec;

use crate::limit::DEEPEST;
use crate::measures::{Measure, Members, Shape};

/// One above a nesting.
pub fn above(nesting: u8) -> u8
    ensures { result ≡ spec.above nesting }
{
    if nesting > DEEPEST {
        DEEPEST + 1
    } else {
        nesting + 1
    }
}

/// The nesting of the expression that a part is.
pub fn nesting_in(part: Measure) -> u8
    ensures { result ≡ spec.nesting_in part }
{
    match part {
        Measure::Expr { nesting, .. } => nesting,
        _ => 0,
    }
}

/// The shape of the expression that a part is.
pub fn shape_in(part: Measure) -> Shape
    ensures { result ≡ spec.shape_in part }
{
    match part {
        Measure::Expr { shape, .. } => shape,
        _ => Shape::Other,
    }
}

/// The greatest nesting of the expressions that commas or one operator divide.
pub fn greatest_in(part: Measure) -> u8
    ensures { result ≡ spec.greatest_in part }
{
    match part {
        Measure::Expr { nesting, .. } => nesting,
        Measure::Many { nesting, .. } => nesting,
        _ => 0,
    }
}

/// Members before which one of this shape stands.
pub fn joined(shape: Shape, members: Members) -> Members
    ensures { result ≡ spec.joined shape members }
{
    match shape {
        Shape::Name => match members {
            Members::None => Members::Names,
            Members::Names => Members::Names,
            Members::Other => Members::Other,
        },
        Shape::Names => Members::Other,
        Shape::Other => Members::Other,
    }
}

/// The members that commas or one operator divide.
pub fn members_in(part: Measure) -> Members
    ensures { result ≡ spec.members_in part }
{
    match part {
        Measure::Expr { shape, .. } => joined(shape, Members::None),
        Measure::Many { members, .. } => members,
        _ => Members::None,
    }
}

/// The shape of a tuple of these members.
pub fn tuple_shape(members: Members) -> Shape
    ensures { result ≡ spec.tuple_shape members }
{
    match members {
        Members::None => Shape::Other,
        Members::Names => Shape::Names,
        Members::Other => Shape::Other,
    }
}

/// The nesting of one expression without a comma, else of a tuple.
pub fn tuple_nesting(part: Measure) -> u8
    ensures { result ≡ spec.tuple_nesting part }
{
    match part {
        Measure::Expr { nesting, .. } => nesting,
        Measure::Many { nesting, .. } => above(nesting),
        Measure::Nothing => 1,
        _ => 0,
    }
}

/// The shape of one expression without a comma, else of a tuple.
pub fn shape_of_tuple(part: Measure) -> Shape
    ensures { result ≡ spec.shape_of_tuple part }
{
    match part {
        Measure::Expr { shape, .. } => shape,
        Measure::Many { members, .. } => tuple_shape(members),
        Measure::Nothing => Shape::Other,
        _ => Shape::Other,
    }
}

/// The greatest nesting of the operands behind operators.
pub fn links_in(part: Measure) -> u8
    ensures { result ≡ spec.links_in part }
{
    match part {
        Measure::Links(nesting) => nesting,
        _ => 0,
    }
}

/// The greatest nesting of the operands behind comparisons.
pub fn compares_in(part: Measure) -> u8
    ensures { result ≡ spec.compares_in part }
{
    match part {
        Measure::Compares(nesting) => nesting,
        _ => 0,
    }
}

/// The nesting of an index or a slice.
pub fn suffix_in(part: Measure) -> u8
    ensures { result ≡ spec.suffix_in part }
{
    match part {
        Measure::Suffix(nesting) => nesting,
        _ => 0,
    }
}

/// The greatest nesting of indexes and slices.
pub fn suffixes_in(part: Measure) -> u8
    ensures { result ≡ spec.suffixes_in part }
{
    match part {
        Measure::Suffixes(nesting) => nesting,
        _ => 0,
    }
}

/// The nesting of a part of a statement or header, 0 where it is missing.
pub fn counted(part: Measure) -> u8
    ensures { result ≡ spec.counted part }
{
    match part {
        Measure::Expr { nesting, .. } => nesting,
        Measure::Many { nesting, .. } => above(nesting),
        Measure::Assign(nesting) => nesting,
        Measure::Augment(nesting) => nesting,
        _ => 0,
    }
}

/// Whether a shape is a name, or one or more names.
fn is_target(shape: Shape) -> bool
    ensures { result ≡ spec.is_target shape }
{
    match shape {
        Shape::Name => true,
        Shape::Names => true,
        Shape::Other => false,
    }
}

/// Whether a shape is a name.
fn is_name(shape: Shape) -> bool
    ensures { result ≡ spec.is_name shape }
{
    match shape {
        Shape::Name => true,
        Shape::Names => false,
        Shape::Other => false,
    }
}

/// Whether a left side fits what stands behind it.
pub fn fits_in(left: Measure, rest: Measure) -> bool
    ensures { result ≡ spec.fits_in left rest }
{
    match rest {
        Measure::Assign(_) => is_target(shape_of_tuple(left)),
        Measure::Augment(_) => is_name(shape_of_tuple(left)),
        _ => true,
    }
}
