//! The laws of histories, each the contract of a function that does nothing.
ghost use Rattle.pyd_board.specs.Laws.{ExtendsItself, ExtendingIsTransitive, ExtensionsByOneSeatAreOne, EntriesGrow};

/// A history extends itself, by no entry of any seat.
pub fn a_history_extends_itself()
    ensures { ExtendsItself }
{}

/// What extends an extension of a history extends that history.
pub fn extending_is_transitive()
    ensures { ExtendingIsTransitive }
{}

/// Two extensions by entries of one seat, one after the other, are one by entries of that seat.
pub fn extensions_by_one_seat_are_one()
    ensures { ExtensionsByOneSeatAreOne }
{}

/// In an extension the number of a seat's entries grows by what the seat added.
pub fn entries_grow()
    ensures { EntriesGrow }
{}
