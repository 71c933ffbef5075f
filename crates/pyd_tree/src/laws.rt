//! The law of nesting, the contract of a function that does nothing.
ghost use Rattle.pyd_tree.specs.Nesting.{NestingByKind};

/// Nesting says of each kind of expression what it should.
pub fn nesting_goes_by_kind()
    ensures { NestingByKind }
{}
