//! Tests of what may be done in a state: contracts of functions with empty bodies.
ghost use Rattle.pyd_runs.specs.Deciding.{PlaceTestLaw, RefineTestLaw, SettleTestLaw, TrimTestLaw};

/// A node may be placed exactly where its test is met.
pub fn place_test_law()
    ensures { PlaceTestLaw }
{}

/// It may be refined exactly where its test is met.
pub fn refine_test_law()
    ensures { RefineTestLaw }
{}

/// It may be settled exactly where its test is met.
pub fn settle_test_law()
    ensures { SettleTestLaw }
{}

/// It may be trimmed exactly where its test is met.
pub fn trim_test_law()
    ensures { TrimTestLaw }
{}
