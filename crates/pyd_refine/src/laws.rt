//! The laws of refining: contracts of functions with empty bodies.
ghost use Rattle.pyd_refine.specs.Laws.{FoundLaw, PieceLaw, PieceOrder, RefineLaw, SubstitutionLaw};
ghost use Rattle.pyd_refine.specs.Rules.{RuleLaws};
ghost use Rattle.pyd_refine.specs.SlotPorts.{PiecePorts, RefinedPorts};
ghost use Rattle.pyd_refine.specs.Supply.{ReadyLaw, SupplyLaw};

/// What the piece of each composite is, in each way in which it goes on.
pub fn rule_laws()
    ensures { RuleLaws }
{}

/// In a list in order, the node of a number is found where it stands.
pub fn found_law()
    ensures { FoundLaw }
{}

/// In a list in order, a new piece that does what a node does may take its place: the list prints the
/// same lines and ends alike, is in order again, and counts no more steps, and fewer wherever the walk
/// leads to the node.
pub fn substitution_law()
    ensures { SubstitutionLaw }
{}

/// The piece of a composite that is ready does what the composite does, gives the same at its ports, and
/// counts fewer steps.
pub fn piece_law()
    ensures { PieceLaw }
{}

/// The piece of a composite is new, whatever the value of its control is: numbered from the next number
/// on, naming only what the composite named or nodes before it in the piece.
pub fn piece_order_law()
    ensures { PieceOrder }
{}

/// In a list in order, the piece of a composite that is ready wherever the walk leads to it may take the
/// composite's place.
pub fn refine_law()
    ensures { RefineLaw }
{}

/// In a list whose nodes have what they need, a composite whose control has a value wherever the walk leads
/// to it is ready there.
pub fn ready_law()
    ensures { ReadyLaw }
{}

/// In such a list in order, the piece of a composite that is ready may take the composite's place: each node
/// of the list then has what it needs.
pub fn supply_law()
    ensures { SupplyLaw }
{}

/// Each slot port that the piece of a composite names is one that the composite names, or one of an `if` or a
/// loop before the node in the piece.
pub fn piece_ports_law()
    ensures { PiecePorts }
{}

/// In a list in order whose nodes name slot ports only of an `if` or a loop before them, the piece of a
/// composite may take its place: the nodes of the list then do so again.
pub fn refined_ports_law()
    ensures { RefinedPorts }
{}
