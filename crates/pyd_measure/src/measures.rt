//! What is kept of a piece of a derivation in place of its tree.

/// What an expression is as the left side of an assignment.
#[derive(Clone, Copy)]
pub enum Shape {
    Name,
    /// A tuple of names that isn't empty.
    Names,
    Other,
}

/// What expressions are as the members of a left side.
#[derive(Clone, Copy)]
pub enum Members {
    None,
    Names,
    Other,
}

/// What is kept of a piece: the greatest nesting of its expressions, cut to one above the limit.
#[derive(Clone, Copy)]
pub enum Measure {
    /// What an optional part that is missing is measured as.
    Nothing,
    Other,
    Expr { nesting: u8, shape: Shape },
    /// Expressions that commas or one operator divide.
    Many { nesting: u8, members: Members },
    Args(u8),
    Links(u8),
    Compares(u8),
    Condition(u8),
    Suffix(u8),
    Suffixes(u8),
    Bound(u8),
    Assign(u8),
    Augment(u8),
}
