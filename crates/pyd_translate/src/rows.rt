//! The nodes of small expressions: contracts of functions with empty bodies.
ghost use Rattle.pyd_translate.specs.Rows as rows;

/// The nodes of `1 + 2 - 3`.
pub fn chain_row()
    ensures { rows.ChainRow }
{}

/// The nodes of `1 < 2 < 3`.
pub fn comparison_row()
    ensures { rows.ComparisonRow }
{}

/// The node of `1 if 2 else 3`.
pub fn conditional_row()
    ensures { rows.ConditionalRow }
{}

/// The node of `1 and 2 and 3`.
pub fn and_row()
    ensures { rows.AndRow }
{}

/// The node of `1[:2]`.
pub fn slice_row()
    ensures { rows.SliceRow }
{}
