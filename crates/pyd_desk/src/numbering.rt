//! Marks and places for the driver's records, of new numbers.
ghost use Rattle.std.specs.Prelude.{◌≡◌, ◌<◌, ◌≤◌, ◌∷◌, [], ℕ, OnOk, None, get_or, length, set, vec_capacity};
ghost use Rattle.std.specs.List.{All};
ghost use Rattle.pyd_runs.specs.Records.{node_at};
ghost use Rattle.pyd_desk.specs.Desks.{mark_at};
ghost use Rattle.pyd_desk.specs.Growing as spec;
ghost use Rattle.pyd_desk.specs.Growing.{told};
ghost use Rattle.pyd_desk.specs.States.{IsSameDesk};

use crate::desk::{Desk, Mark, PortKind};
use crate::works::port_kind;
use pyd_ir::Node;
use pyd_meaning::Ran;
use pyd_value::{Boxed, NoMemory};

impl Desk {
    /// Makes room for a mark and a place for the driver's record at each number below one.
    pub(crate) fn make_room(&mut self, numbers: usize) -> Result<(), NoMemory>
        ensures marks { OnOk result (numbers ≤ vec_capacity self.new.marks) }
        ensures driver { OnOk result (numbers ≤ vec_capacity self.new.driver) }
        ensures same { IsSameDesk self.old self.new }
    {
        reserve_all(&mut self.marks, numbers)?;
        reserve_all(&mut self.driver, numbers)
    }

    /// New nodes below a number have blank marks, which tell what stands at their ports, and places
    /// for the driver's records; node `id` is gone. There is room.
    pub(crate) fn add_nodes(&mut self, id: u64, numbers: usize, nodes: &[Node])
        requires marks { numbers ≤ vec_capacity self.old.marks }
        requires driver { numbers ≤ vec_capacity self.old.driver }
        ensures { spec.HasNew id numbers nodes.now self.old self.new }
    {
        add_marks(&mut self.marks, numbers);
        add_places(&mut self.driver, numbers);
        set_ports(&mut self.marks, id, PortKind::One);
        tell_ports(&mut self.marks, nodes);
    }
}

/// Makes room for so many items in all.
fn reserve_all<T>(items: &mut Vec<T>, count: usize) -> Result<(), NoMemory>
    ensures room { OnOk result (count ≤ vec_capacity items.new) }
    ensures items { items.new.items ≡ items.old.items }
    ensures grows { vec_capacity items.old ≤ vec_capacity items.new }
{
    items.reserve(count.saturating_sub(items.len()))?;
    Ok(())
}

/// There are so many marks at least, the new ones blank. There is room for them.
#[tactic(auto, using(crate::proofs::Told::more_blank))]
fn add_marks(marks: &mut Vec<Mark>, count: usize)
    requires { count ≤ vec_capacity marks.old }
    ensures marks { (k : ℕ) → mark_at marks.new.items k ≡ mark_at marks.old.items k }
    ensures count { length marks.old.items ≤ count → length marks.new.items ≡ count }
{
    let mut left = count.saturating_sub(marks.len());
    while left > 0 {
        left -= 1;
        marks.push_reserved(Mark {
            places: 0,
            ticket: None,
            machine: None,
            claim: None,
            ports: PortKind::One,
        });
    }
}

/// There are so many places for the driver's records at least, the new ones empty. There is room.
#[tactic(auto, using(crate::proofs::Told::more_blank))]
fn add_places(driver: &mut Vec<Option<Boxed<Ran>>>, count: usize)
    requires { count ≤ vec_capacity driver.old }
    ensures driver { (k : ℕ) → get_or driver.new.items k None ≡ get_or driver.old.items k None }
    ensures count { length driver.old.items ≤ count → length driver.new.items ≡ count }
{
    let mut left = count.saturating_sub(driver.len());
    while left > 0 {
        left -= 1;
        driver.push_reserved(None);
    }
}

/// The marks of nodes tell what stands at their ports, of equal numbers the first.
#[tactic(auto, using(crate::proofs::Told::told_more))]
fn tell_ports(marks: &mut Vec<Mark>, nodes: &[Node])
    ensures told { All (λ n. n.id < length marks.old.items) nodes.now → (k : ℕ)
        → mark_at marks.new.items k ≡ told (node_at nodes.now k) (mark_at marks.old.items k) }
    ensures count { length marks.new.items ≡ length marks.old.items }
{
    let mut left = nodes.len();
    while left > 0 {
        left -= 1;
        tell_port(marks, &nodes[left]);
    }
}

/// The mark of a node tells what stands at its ports.
fn tell_port(marks: &mut Vec<Mark>, node: &Node)
    ensures told { node.now.id < length marks.old.items → (k : ℕ)
        → mark_at marks.new.items k ≡ told (node_at (node.now ∷ []) k) (mark_at marks.old.items k) }
    ensures count { length marks.new.items ≡ length marks.old.items }
{
    set_ports(marks, node.id, port_kind(&node.work));
}

/// A mark tells this of ports, if it is there.
fn set_ports(marks: &mut Vec<Mark>, node: u64, ports: PortKind)
    ensures set { node < length marks.old.items → marks.new.items ≡ set marks.old.items node
        (record (mark_at marks.old.items node) { ports = ports }) }
    ensures count { length marks.new.items ≡ length marks.old.items }
{
    if let Some(mark) = marks.get_mut(node as usize) {
        mark.ports = ports;
    }
}
