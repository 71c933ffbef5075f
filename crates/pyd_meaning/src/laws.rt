//! The laws of expressions, in the order of the grammar: contracts of functions with empty bodies.
ghost use Rattle.pyd_meaning.specs.Laws as law;

/// A conditional expression evaluates its test first, and then one side (section 6.13).
pub fn conditional_law()
    ensures { law.ConditionalLaw }
{}

/// An `or` evaluates its members up to the first that is true, and gives it (section 6.11).
pub fn or_law()
    ensures { law.OrLaw }
{}

/// An `and` evaluates its members up to the first that is false, and gives it (section 6.11).
pub fn and_law()
    ensures { law.AndLaw }
{}

/// A comparison evaluates each operand once at most, and stops at a false link (section 6.10).
pub fn comparison_law()
    ensures { law.ComparisonLaw }
{}

/// A chain of operators of one level is evaluated from the left (sections 6.7 to 6.9).
pub fn chain_law()
    ensures { law.ChainLaw }
{}

/// A `+` of integers is the exact sum, or the limit fault where that is too wide.
pub fn sum_law()
    ensures { law.SumLaw }
{}

/// An operator before an operand (sections 6.6 and 6.11).
pub fn unary_law()
    ensures { law.UnaryLaw }
{}

/// A power evaluates its base, and then its exponent (section 6.5).
pub fn power_law()
    ensures { law.PowerLaw }
{}

/// Brackets behind an expression are evaluated after it, from the left (section 6.3).
pub fn suffixed_law()
    ensures { law.SuffixedLaw }
{}

/// An index is evaluated behind its base (section 6.3.2).
pub fn index_law()
    ensures { law.IndexLaw }
{}

/// The bounds of a slice are evaluated behind its base, the lower first (section 6.3.3).
pub fn slice_law()
    ensures { law.SliceLaw }
{}

/// A name is read (section 6.2.1).
pub fn name_law()
    ensures { law.NameLaw }
{}

/// A call evaluates its callee first, and then its arguments from the left (section 6.3.4).
pub fn call_law()
    ensures { law.CallLaw }
{}

/// A call of a name that is bound nowhere raises `NameError` before its arguments (section 4.2.2).
pub fn unbound_call_law()
    ensures { law.UnboundCallLaw }
{}

/// A literal is its value (section 6.2.2).
pub fn literal_law()
    ensures { law.LiteralLaw }
{}

/// A tuple evaluates its members from the left (section 6.15).
pub fn tuple_law()
    ensures { law.TupleLaw }
{}
