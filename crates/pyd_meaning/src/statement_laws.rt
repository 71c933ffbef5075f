//! The laws of statements, in the order of the grammar: contracts of functions with empty bodies.
ghost use Rattle.pyd_meaning.specs.StatementLaws as law;

/// An `if` evaluates its tests from the first on, up to one that is true (section 8.1).
pub fn if_law()
    ensures { law.IfLaw }
{}

/// A test stands in the line of its own header (section 8.1).
pub fn arm_law()
    ensures { law.ArmLaw }
{}

/// A `while` evaluates its test before each turn (section 8.2).
pub fn while_law()
    ensures { law.WhileLaw }
{}

/// A `for` evaluates its iterable once (section 8.3).
pub fn for_law()
    ensures { law.ForLaw }
{}

/// A suite is its statements in turn (section 8).
pub fn suite_law()
    ensures { law.SuiteLaw }
{}

/// A statement that is begun is a step.
pub fn statement_law()
    ensures { law.StatementLaw }
{}

/// An expression statement evaluates its expression (section 7.1).
pub fn expression_law()
    ensures { law.ExpressionLaw }
{}

/// An assignment evaluates its right side before it binds its targets (section 7.2).
pub fn assignment_law()
    ensures { law.AssignmentLaw }
{}

/// An augmented assignment reads its name before it evaluates its right side (section 7.2.1).
pub fn augmented_law()
    ensures { law.AugmentedLaw }
{}

/// `pass`, `break` and `continue` (sections 7.4, 7.9 and 7.10).
pub fn leaving_law()
    ensures { law.LeavingLaw }
{}

/// A `return` gives its value, or None (section 7.6).
pub fn return_law()
    ensures { law.ReturnLaw }
{}

/// An `assert` evaluates its message only where its test is false (section 7.3).
pub fn assert_law()
    ensures { law.AssertLaw }
{}
