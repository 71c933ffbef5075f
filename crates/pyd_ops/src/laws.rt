//! The laws of operations, each the contract of a function that does nothing.
ghost use Rattle.pyd_ops.specs.Laws as law;

/// From operands within the limits on integers, size and nesting every operation gives values
/// within them, and `range_of` a range whose numbers are all within 128 bits.
pub fn operations_keep_limits()
    ensures { law.OperationsKeepLimits }
{}

/// A range begins at its first bound, goes by its step, and counts exactly the numbers that come
/// before its end, as far as its count reaches.
pub fn range_counts_to_its_end()
    ensures { law.RangeLaw }
{}

/// `a == b * (a // b) + a % b`, and `a % b` lies from 0 to `b`, which it never reaches.
pub fn quotient_and_remainder_go_together()
    ensures { law.DivisionLaw }
{}

/// A text stands within another exactly where it is the middle of a cut of that one in three.
pub fn substring_is_a_middle()
    ensures { law.SubstringIsAMiddle }
{}

/// The items of a slice are those between its bounds, each bound counted from the end where it is
/// negative, and cut to the beginning and the end.
pub fn slice_has_the_items_between()
    ensures { law.SliceLaw }
{}
