//! Records, tickets and claims, by the numbers of nodes.

use pyd_ir::Job;
use pyd_meaning::Ran;
use pyd_store::Store;
use pyd_value::Boxed;
use std::snapshot::Snapshot;

/// What stands at the ports of a node that gave a value.
#[derive(Clone, Copy, Debug, PartialEq, Eq)]
pub enum PortKind {
    /// The value, at port 0.
    One,
    /// Its items, each at a port.
    Items,
    /// Nothing: of a composite and of a node that faults.
    Nothing,
}

/// A ticket for an attempt, counted from 1, placed on a machine.
#[derive(Clone, Copy, Debug, PartialEq, Eq)]
pub struct Placed {
    pub attempt: u64,
    pub machine: u32,
}

/// A claim of an attempt, by a seat of a machine. The job is named without its bytes.
#[derive(Drop)]
pub struct Held {
    pub attempt: u64,
    pub machine: u32,
    pub seat: u32,
    pub job: Snapshot<Job>,
}

/// What is kept at a node's number.
#[derive(Drop)]
pub struct Mark {
    /// How often the node was placed.
    pub places: u64,
    pub ticket: Option<Placed>,
    /// The machine in whose store its record is, unless that was cleared.
    pub machine: Option<u32>,
    /// A claim as long as its machine lives; after that one that is undone.
    pub claim: Option<Held>,
    pub ports: PortKind,
}

/// A claim that a loss undid, of a node that was claimed again.
#[derive(Drop)]
pub struct Undone {
    pub node: u64,
    pub held: Held,
}

/// What stands where. Marks and what the driver keeps are by the nodes' numbers, stores and whether
/// they live by the machines, counted from 0.
#[derive(Drop)]
pub struct Desk {
    pub marks: Vec<Mark>,
    /// What the driver keeps of effects.
    pub driver: Vec<Option<Boxed<Ran>>>,
    pub stores: Vec<Store>,
    pub alive: Vec<bool>,
    pub undone: Vec<Undone>,
}
