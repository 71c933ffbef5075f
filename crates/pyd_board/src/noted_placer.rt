//! The placer that tells its calls.
ghost use Rattle.std.specs.Prelude.{◌≡◌, ◌≤◌, [], Some, IfOk, IfSome, option_map, vec_len, vec_capacity};
ghost use Rattle.pyd_board.specs.declared.placer.Asked.TheVariants.{Place, Ended, Lost};
ghost use Rattle.pyd_board.specs.Placing.{Told, next_live};
ghost use Rattle.pyd_board.specs.Noting.{noted};

use crate::{Asked, Placer, RoundRobin};
use pyd_value::NoMemory;
use std::alloc::Global;
use std::marker::Model;

/// Answers as its inner placer, and tells its calls as long as they are at most `room`.
#[derive(Debug, Drop)]
pub struct NotedPlacer {
    inner: RoundRobin,
    room: usize,
    calls: Option<Vec<Asked>>,
}

impl Model for NotedPlacer {
    ghost use Rattle.std.specs.Prelude.{◌≤◌, IfSome, option_map, vec_len, vec_capacity};
    ghost use Rattle.pyd_board.specs.Noting.{Noted};

    ghost Value = { Noted };

    ghost view = { λ p. record {
      inner = p.inner;
      room = p.room;
      calls = option_map (λ calls. calls.items) p.calls;
    } };

    ghost invariant = { λ p.
        IfSome p.calls (λ calls. (vec_len calls ≤ p.room) × (p.room ≤ vec_capacity calls)) };
}

impl NotedPlacer {
    /// A placer that was asked nothing. It reserves the room for its calls.
    pub fn new(alloc: Global, inner: RoundRobin, room: usize) -> Result<NotedPlacer, NoMemory>
        ensures { IfOk result (λ placer.
            placer ≡ record { inner = inner; room = room; calls = Some [] }) }
    {
        Ok(NotedPlacer {
            inner,
            room,
            calls: Some(Vec::with_capacity(alloc, room)?),
        })
    }

    /// The calls so far, none once they are more than the room.
    pub fn calls(&self) -> Option<&[Asked]>
        ensures { option_map (λ calls. calls.now) result ≡ self.now.calls }
    {
        match &self.calls {
            Some(calls) => Some(calls.as_slice()),
            None => None,
        }
    }

    // Keeps a call.
    fn note(&mut self, entry: Asked)
        ensures { self.new ≡ record self.old {
          calls = noted self.old.room self.old.calls entry;
        } }
    {
        self.calls = note_in(self.calls.take(), self.room, entry);
    }
}

// The calls with one more, or none where they would be more than the room.
fn note_in(calls: Option<Vec<Asked>>, room: usize, entry: Asked) -> Option<Vec<Asked>>
    requires within { IfSome calls (λ calls. vec_len calls ≤ room) }
    requires room { IfSome calls (λ calls. room ≤ vec_capacity calls) }
    ensures value { option_map (λ calls. calls.items) result
        ≡ noted room (option_map (λ calls. calls.items) calls) entry }
    ensures within { IfSome result (λ calls. vec_len calls ≤ room) }
    ensures room { IfSome result (λ calls. room ≤ vec_capacity calls) }
{
    let mut calls = calls?;
    if calls.len() < room {
        calls.push_reserved(entry);
        Some(calls)
    } else {
        None
    }
}

impl Placer for NotedPlacer {
    ghost calls = { λ placer. placer.calls };

    fn place(&mut self, node: u64, func: u32, alive: &[bool]) -> u32
        ensures value { result ≡ next_live alive.now self.old.inner.last }
        ensures last { self.new.inner.last ≡ Some result }
        ensures room { self.new.room ≡ self.old.room }
        ensures noted { self.new.calls
            ≡ noted self.old.room self.old.calls (Place node func result) }
        ensures calls { Told self.old.calls (Place node func result) self.new.calls }
    {
        let machine = self.inner.place(node, func, alive);
        self.note(Asked::Place(node, func, machine));
        machine
    }

    fn ended(&mut self, node: u64, machine: u32)
        ensures same { self.new.inner ≡ self.old.inner }
        ensures room { self.new.room ≡ self.old.room }
        ensures noted { self.new.calls
            ≡ noted self.old.room self.old.calls (Ended node machine) }
        ensures calls { Told self.old.calls (Ended node machine) self.new.calls }
    {
        self.inner.ended(node, machine);
        self.note(Asked::Ended(node, machine));
    }

    fn lost(&mut self, machine: u32)
        ensures same { self.new.inner ≡ self.old.inner }
        ensures room { self.new.room ≡ self.old.room }
        ensures noted { self.new.calls
            ≡ noted self.old.room self.old.calls (Lost machine) }
        ensures calls { Told self.old.calls (Lost machine) self.new.calls }
    {
        self.inner.lost(machine);
        self.note(Asked::Lost(machine));
    }
}
