//! The laws of the definitions, each the contract of a function that does nothing.
ghost use Rattle.pyd_names.specs.Laws.{BindingsByKind, ConstantsAreBoundOnce, DistinctNames, FormedByKind, LiteralByKind, NamesResolveByRule, PartsByKind, StatementPartsByKind, StatementUsesByKind, StatementsFormedByKind, UsesByKind};

/// What is a literal, and its value.
pub fn literals_go_by_kind()
    ensures { LiteralByKind }
{}

/// What each kind of statement binds.
pub fn bindings_go_by_kind()
    ensures { BindingsByKind }
{}

/// What each kind of expression and of statement uses.
pub fn uses_go_by_kind()
    ensures expressions { UsesByKind }
    ensures statements { StatementUsesByKind }
{}

/// A constant of a file is bound once by the module's statements.
pub fn constants_are_bound_once()
    ensures { ConstantsAreBoundOnce }
{}

/// The names that are kept each once are the names that were there.
pub fn distinct_names_are_the_names()
    ensures { DistinctNames }
{}

/// A name resolves by the rules, in their order.
pub fn names_resolve_by_rule()
    ensures { NamesResolveByRule }
{}

/// What it says of each kind of expression and of statement to be well formed.
pub fn forms_go_by_kind()
    ensures expressions { FormedByKind }
    ensures statements { StatementsFormedByKind }
{}

/// The parts of each kind of expression and of statement.
pub fn parts_go_by_kind()
    ensures expressions { PartsByKind }
    ensures statements { StatementPartsByKind }
{}
