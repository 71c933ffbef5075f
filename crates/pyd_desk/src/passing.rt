//! The head of the chain, once it gave a value.
ghost use Rattle.std.specs.Prelude.{◌≡◌, ◌<◌, ◌≤◌, ◌∷◌, ℕ, List, All, drop, false, length};
ghost use Rattle.pyd_value.specs.declared.value.Value.{Value};
ghost use Rattle.pyd_ir.specs.declared.node.Node.{Node as SpecNode};
ghost use Rattle.pyd_ir.specs.Arguments.{is_composite, is_pure};
ghost use Rattle.pyd_runs.specs.Effects.{State, passed};
ghost use Rattle.pyd_runs.specs.Plans.{Plan};
ghost use Rattle.pyd_runs.specs.Sound.{IsSound};
ghost use Rattle.pyd_desk.specs.Lines.{chain_of};
ghost use Rattle.pyd_desk.specs.Passing.{kept_of};
ghost use Rattle.pyd_desk.specs.States.{HasSameMachines, IsStateOf};

use crate::desk::Desk;
use crate::line::Line;
use pyd_ir::Node;
use pyd_meaning::Ran;
use pyd_value::Boxed;

impl Line {
    /// The head of the chain, which has a node.
    pub fn head(&self) -> &Node
        requires { self.now.settled < length self.now.nodes.items }
        ensures { chain_of self.now ≡ result.now ∷ drop 1 (chain_of self.now) }
    {
        &self.nodes[self.settled]
    }
}

/// The head, which gave a value, is passed: a pure node goes to the past, and of an effect, which
/// goes, the driver keeps what it gave. `kept` is that, and nothing of a pure node. Takes no
/// memory.
pub fn pass_head(line: &mut Line, desk: &mut Desk, kept: Option<Boxed<Ran>>)
    requires head { line.old.settled < length line.old.nodes.items }
    requires driver { All (λ n. n.id < length desk.old.driver.items) (chain_of line.old) }
    ensures state { (p : Plan) (s : State) (n : SpecNode) (rest : List SpecNode)
        (lines : List (List ℕ)) (v : Value) → IsSound p s → IsStateOf line.old desk.old s
        → s.graph.chain ≡ n ∷ rest
        → is_composite n.work ≡ false → kept ≡ kept_of (is_pure n.work) v
        → IsStateOf line.new desk.new
        (record s { graph = passed (is_pure n.work) s.graph n rest lines v }) }
    ensures within { line.new.settled ≤ length line.new.nodes.items }
    ensures machines { HasSameMachines desk.old desk.new }
{
    match kept {
        None => line.pass(),
        Some(ran) => {
            let number = line.head().id;
            desk.driver[number as usize] = Some(ran);
            line.let_pass();
        }
    }
}
