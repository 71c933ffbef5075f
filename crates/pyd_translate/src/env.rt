//! The arguments of a routine's slots.
ghost use Rattle.std.specs.Prelude.{◌≡◌, [], ◌∷◌, ◌++◌, length, slice_set, IfOk, OnOk};
ghost use Rattle.pyd_ir.specs.declared.arg.Arg.TheVariants as arg;
ghost use Rattle.pyd_translate.specs.Flows.{slots_in};
ghost use Rattle.pyd_translate.specs.Making.{port};
ghost use Rattle.pyd_translate.specs.Slots as spec;

use crate::numbers::number;
use crate::setting::Setting;
use pyd_ir::{Arg, Ref};
use pyd_scope::Use;
use pyd_value::{NoMemory, Text};
use std::alloc::Global;

/// Copies of the arguments of slots.
pub fn slots_of(alloc: Global, args: &[Arg]) -> Result<Vec<Arg>, NoMemory>
    ensures { IfOk result (λ slots. slots.items ≡ args.now) }
{
    let mut slots = Vec::new(alloc);
    for a in args {
        let copy = a.try_copy(alloc)?;
        add(&mut slots, copy)?;
    }
    Ok(slots)
}

/// Puts an argument at the end.
fn add(slots: &mut Vec<Arg>, a: Arg) -> Result<(), NoMemory>
    ensures { OnOk result (slots.new.items ≡ slots.old.items ++ a ∷ []) }
{
    match slots.push(a) {
        Ok(()) => Ok(()),
        Err(_) => Err(NoMemory),
    }
}

/// A name's slot takes an argument. A name that is no local has none.
pub fn set_slot(at: &Setting<'_>, env: &mut Vec<Arg>, name: &Text, a: Arg)
    ensures { env.new.items
        ≡ spec.set_slot (slots_in at.now) env.old.items name.now a }
{
    match at.program.resolve(at.routine, name) {
        Use::Slot(slot) => put(env, slot, a),
        Use::Constant(_)
        | Use::Routine(_)
        | Use::Builtin(_)
        | Use::Imported
        | Use::Variable
        | Use::Unbound => drop(a),
    }
}

/// Puts an argument in the place of another, if there is one.
fn put(env: &mut Vec<Arg>, place: u32, a: Arg)
    ensures { env.new.items ≡ slice_set env.old.items place a }
{
    match env.get_mut(place as usize) {
        Some(slot) => *slot = a,
        None => drop(a),
    }
}

/// The slots are the ports of a composite, whose value is at the port behind them.
pub fn take_ports(at: &Setting<'_>, id: u64, env: &mut Vec<Arg>) -> Result<Arg, NoMemory>
    ensures slots { OnOk result
        (env.new.items ≡ spec.slot_ports id 0 (slots_in at.now)) }
    ensures value { IfOk result
        (λ v. v ≡ arg.From (port id (length (slots_in at.now)))) }
{
    let count = number(at.slots().len())?;
    env.clear();
    for port in 0..count {
        add(env, Arg::Slot(Ref { node: id, port }))?;
    }
    Ok(Arg::From(Ref {
        node: id,
        port: count,
    }))
}
