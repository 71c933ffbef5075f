//! The laws of loops, names, calls and scripts: contracts of functions with empty bodies.
ghost use Rattle.pyd_meaning.specs.LoopLaws as loops;
ghost use Rattle.pyd_meaning.specs.CallLaws as calls;

/// What a `while` does from the value of its test on.
pub fn while_turns_law()
    ensures { loops.WhileTurns }
{}

/// What a `for` does from an item on.
pub fn for_turns_law()
    ensures { loops.ForTurns }
{}

/// A range has a step and numbers within the limits.
pub fn range_law()
    ensures { loops.RangeLaw }
{}

/// Targets are bound all or none (section 7.2).
pub fn targets_law()
    ensures { loops.TargetsLaw }
{}

/// A name gives its value or raises an exception (section 4.2.2).
pub fn read_law()
    ensures { calls.ReadLaw }
{}

/// A call of a function: the count of its arguments, its depth, its body (section 8.7).
pub fn function_law()
    ensures { calls.FunctionLaw }
{}

/// A script is its module statements in turn.
pub fn module_law()
    ensures { calls.ModuleLaw }
{}
