//! What is known of the names that occur in one routine.
ghost use Rattle.std.specs.Prelude.{◌≡◌, [], ◌∷◌, ◌++◌, IfSome, OnErr, OnOk};
ghost use Rattle.std.specs.List.{Contains};
ghost use Rattle.std.specs.List.Sorted.{IsPermutation};
ghost use Rattle.pyd_names.specs.Binding.{same_name};
ghost use Rattle.pyd_scope.specs.Tables as spec;

use pyd_value::{Builtin, NoMemory, Text};
use std::alloc::Global;
use std::cmp::Ordering;
use std::marker::Model;

/// Up to so many entries are looked through in turn, which is then faster than a search by halves.
const FEW: usize = 8;

/// What a name stands for, by numbers alone.
#[derive(Clone, Copy)]
pub enum Known {
    /// A local, and its place among the routine's slots, counted from 0.
    Slot(usize),
    /// A constant, and its place among the program's, counted from 0.
    Constant(usize),
    /// A function, counted from 0.
    Routine(usize),
    Builtin(Builtin),
    Imported,
    Variable,
    Unbound,
}

/// A name, and what it stands for.
#[derive(Drop)]
pub struct Entry {
    pub name: Text,
    pub known: Known,
}

/// The entries of the names of one routine, which contracts see as their list.
#[derive(Drop)]
pub struct Table {
    entries: Vec<Entry>,
}

impl Model for Table {
    ghost use Rattle.std.specs.Prelude.{List};
    ghost use Rattle.pyd_scope.specs.declared.table.Entry.{Entry as AnEntry};

    ghost Value = { List AnEntry };

    ghost view = { λ t. t.entries.items };
}

impl Table {
    /// No entries.
    pub fn new(alloc: Global) -> Table
        ensures { result ≡ [] }
    {
        Table {
            entries: Vec::new(alloc),
        }
    }

    /// Puts an entry at the end.
    pub fn add(&mut self, name: &Text, known: Known) -> Result<(), NoMemory>
        ensures ok { OnOk result (self.new ≡ self.old ++ spec.entry name.now known ∷ []) }
        ensures same { OnErr result (self.new ≡ self.old) }
    {
        let name = name.try_clone()?;
        self.entries.push(Entry { name, known })?;
        Ok(())
    }

    /// Puts the entries in the order in which `find` looks.
    pub fn sort(&mut self)
        ensures { IsPermutation self.old self.new }
    {
        self.entries
            .sort_unstable_by(|a, b| order(&a.name, &b.name));
    }

    /// What an entry of this name tells, or none. Where the entries are in order each is found.
    pub fn find(&self, name: &Text) -> Option<Known>
        ensures { IfSome result (λ known. Contains self.now (spec.entry name.now known)) }
    {
        let entries = self.entries.as_slice();
        if entries.len() <= FEW {
            look_through(entries, name)
        } else {
            halve(entries, name)
        }
    }
}

fn look_through(entries: &[Entry], name: &Text) -> Option<Known>
    ensures { IfSome result (λ known. Contains entries.now (spec.entry name.now known)) }
{
    for entry in entries {
        if is_same(&entry.name, name) {
            return Some(entry.known);
        }
    }
    None
}

fn halve(entries: &[Entry], name: &Text) -> Option<Known>
    ensures { IfSome result (λ known. Contains entries.now (spec.entry name.now known)) }
{
    let mut low = 0;
    let mut high = entries.len();
    while low < high {
        let middle = low + (high - low) / 2;
        let entry = &entries[middle];
        if is_same(&entry.name, name) {
            return Some(entry.known);
        }
        if order(&entry.name, name) == Ordering::Less {
            low = middle + 1;
        } else {
            high = middle;
        }
    }
    None
}

/// Whether two names are the same. Most that aren't differ in their count of characters.
fn is_same(a: &Text, b: &Text) -> bool
    ensures { result ≡ same_name a.now b.now }
{
    a.count() == b.count() && a == b
}

/// The order of entries: by count of characters, and then by bytes. A look-up is right in any order.
fn order(a: &Text, b: &Text) -> Ordering {
    match a.count().cmp(&b.count()) {
        Ordering::Equal => a.as_str().as_bytes().cmp(b.as_str().as_bytes()),
        unequal => unequal,
    }
}
