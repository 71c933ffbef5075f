//! The limit on nesting, as a constant.
ghost use Rattle.std.specs.Prelude.{◌≡◌};
ghost use Rattle.pyd_measure.specs.Limit.{deepest};
ghost use Rattle.pyd_measure.specs.declared.limit.TheConstants.{DEEPEST};

/// The deepest nesting of a statement or a header.
pub const DEEPEST: u8 = 24;

/// The constant is the limit that the definitions speak of.
pub fn constant_is_the_limit()
    ensures { DEEPEST ≡ deepest }
{}
