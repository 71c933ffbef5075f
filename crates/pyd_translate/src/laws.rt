//! The laws of translation: contracts of functions with empty bodies.
ghost use Rattle.pyd_translate.specs.Counts.{BlockCount, FileItems, NumberedItems, SideCount};
ghost use Rattle.pyd_translate.specs.Laws.{BlockLaw, BlockOrder, ExpressionLaw, ScriptLaw, SideLaw, SideOrder, StartLaw};
ghost use Rattle.pyd_translate.specs.Nested.{BlockNested, RoutineCount, SideNested, StartWithin};
ghost use Rattle.pyd_translate.specs.Purity.{FunctionalCallLaw, FunctionalLeafLaw};
ghost use Rattle.pyd_translate.specs.Readings.{ConditionalOrder, StopLaw};
ghost use Rattle.pyd_translate.specs.SlotPorts.{BlockPorts, LeafPorts, ScriptPorts, SidePorts};
ghost use Rattle.pyd_translate.specs.Supplied.{BlockSupply, ExpressionSupply, SideSupply};

/// Of a conditional expression the first side is numbered before the test.
pub fn conditional_order_law()
    ensures { ConditionalOrder }
{}

/// Behind a Stop nothing is made.
pub fn stop_law()
    ensures { StopLaw }
{}

/// The statements at each start stand in their routine at their place: those of its body, of each suite
/// of a statement that a number names, and none where a number names no statement.
pub fn start_law()
    ensures { StartLaw }
{}

/// The nodes of statements, and of what goes on behind them, are numbered one after another from the
/// first number on, and each names only nodes before it. This asks nothing of the numbers of the rest.
pub fn block_order_law()
    ensures { BlockOrder }
{}

/// The nodes of a side of a choice are numbered in the same way.
pub fn side_order_law()
    ensures { SideOrder }
{}

/// Each slot port that a node of statements names, or of what goes on behind them, is one that the slots or
/// the rest name, or one of an `if` or a loop that stands before the node. So is each that they end with.
pub fn block_ports_law()
    ensures { BlockPorts }
{}

/// The same of the nodes of a side of a choice, and of what the slots or the side name.
pub fn side_ports_law()
    ensures { SidePorts }
{}

/// Each slot port that a node of a script names is one of an `if` or a loop that stands before the node.
pub fn script_ports_law()
    ensures { ScriptPorts }
{}

/// Where the first node of a list is a leaf, no later node names a slot port of it.
pub fn leaf_ports_law()
    ensures { LeafPorts }
{}

/// Statements, and what goes on behind them, have at most 3 nodes for each statement, arm, expression
/// and suffix from which they are made.
pub fn block_count_law()
    ensures { BlockCount }
{}

/// A side of a choice has at most 3 nodes for each expression and suffix in its expression.
pub fn side_count_law()
    ensures { SideCount }
{}

/// The nodes of an expression that stands in its routine at its number print what it prints, give its value
/// or end at its fault, and count at most 4 steps of a walk for each of its steps.
pub fn expression_law()
    ensures { ExpressionLaw }
{}

/// The nodes of a side of a choice do what the side means: a value, an expression, or what is left of an
/// `and`, an `or` or a comparison. They count one step more.
pub fn side_law()
    ensures { SideLaw }
{}

/// Statements of a routine, and a rest whose frames stand one round the other behind them, have at most 3
/// nodes for each statement, arm, expression and suffix of the routine; each `for` that is gone on with
/// leaves 3 to spare, so its targets may be unpacked before.
pub fn routine_count_law()
    ensures { RoutineCount }
{}

/// The composites of such statements, and of such a rest, have such rests in turn.
pub fn block_nested_law()
    ensures { BlockNested }
{}

/// No composite of a side of a choice has a rest.
pub fn side_nested_law()
    ensures { SideNested }
{}

/// An expression that a number names has no more expressions and suffixes in it than its routine has
/// statements, arms, expressions and suffixes.
pub fn numbered_items_law()
    ensures { NumberedItems }
{}

/// A routine has no more of these than its file.
pub fn file_items_law()
    ensures { FileItems }
{}

/// The suites of a statement stand between its number and its end.
pub fn start_within_law()
    ensures { StartWithin }
{}

/// The nodes of statements that stand in a routine, and of what goes on behind them, print what these print,
/// and end with the same names and returned value or at the same fault. They count at most 4 steps of a walk
/// for each of their steps, and 2 for each frame behind them.
pub fn block_law()
    ensures { BlockLaw }
{}

/// The nodes of a script print what it prints, and end with the same variables or at the same fault. They
/// count at most 4 steps of a walk for each of its steps.
pub fn script_law()
    ensures { ScriptLaw }
{}

/// A call of a `@functional` function of a file that breaks no rule prints nothing.
pub fn functional_call_law()
    ensures { FunctionalCallLaw }
{}

/// Nor does a leaf that calls one.
pub fn functional_leaf_law()
    ensures { FunctionalLeafLaw }
{}

/// Where a walk comes to a node of an expression, the node has what it needs: the arguments of a leaf and of
/// a call that is entered have values, and so have the control and the sides of a choice.
pub fn expression_supply_law()
    ensures { ExpressionSupply }
{}

/// So has each node of a side of a choice, where the side's own argument has a value.
pub fn side_supply_law()
    ensures { SideSupply }
{}

/// So has each node of statements, and of what goes on behind them, where the iterables of the rest have values.
/// A composite also has an argument for each slot of its routine.
pub fn block_supply_law()
    ensures { BlockSupply }
{}
