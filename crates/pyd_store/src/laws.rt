//! The laws of a store, the contract of a function that does nothing.
ghost use Rattle.pyd_store.specs.Laws.{MapLaws};

/// What a store has at a node after each of its calls.
pub fn a_store_is_a_map()
    ensures { MapLaws }
{}
