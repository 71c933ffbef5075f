//! What is settled and what nodes mean, each law the contract of a function that does nothing.
ghost use Rattle.pyd_effect.specs.Laws as law;

/// What is settled of a leaf is what it does.
pub fn leaf_law()
    ensures { law.LeafLaw }
{}

/// What is settled of the head is what a walk over the chain does at it.
pub fn walk_law()
    ensures { law.WalkLaw }
{}

/// Both, of a node of a file that breaks no rule: what it calls as pure is `@functional`, and so prints
/// nothing.
pub fn functional_law()
    ensures { law.FunctionalLaw }
{}
