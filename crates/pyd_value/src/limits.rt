//! The limits on values, which are the profile's own, as constants.
ghost use Rattle.std.specs.Prelude.{◌≡◌};
ghost use Rattle.pyd_value.specs.Limits.{integer_bound, largest_size, deepest_nesting};
ghost use Rattle.pyd_value.specs.declared.limits.TheConstants.{INTEGER_BOUND, LARGEST_SIZE, DEEPEST_NESTING};

/// Integers lie below this, and not below its negative.
pub const INTEGER_BOUND: u128 = 1 << 127;

/// The largest size of a value.
pub const LARGEST_SIZE: u64 = 1_048_576;

/// The deepest nesting of a tuple.
pub const DEEPEST_NESTING: u32 = 100;

/// The constants are the limits that the definitions speak of.
pub fn constants_are_the_limits()
    ensures integers { INTEGER_BOUND ≡ integer_bound }
    ensures size { LARGEST_SIZE ≡ largest_size }
    ensures nesting { DEEPEST_NESTING ≡ deepest_nesting }
{}
