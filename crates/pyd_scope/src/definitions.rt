//! What a module defines, and what it binds that it may not (Python Language Reference, section 4.2.1).
ghost use Rattle.std.specs.Prelude.{◌≡◌, [], ◌∷◌, ◌++◌, ◌||◌, IfOk, OnOk, option_map};
ghost use Rattle.pyd_names.specs.Binding as names;
ghost use Rattle.pyd_scope.specs.Least.{least};
ghost use Rattle.pyd_scope.specs.Once.{has_once};
ghost use Rattle.pyd_scope.specs.Once as spec;
ghost use Rattle.pyd_scope.specs.Rules as rule;

use crate::least::lesser;
use crate::names::Names;
use crate::once::Once;
use crate::words::is_word;
use pyd_names::{Binding, builtin_named, constants_may_follow, is_literal, plain_assignment};
use pyd_tree::{File, Item, Stmt};
use pyd_value::{List, NoMemory, Text};
use std::alloc::Global;

/// The `def`s and constants in text order, each with its line.
pub fn definitions(alloc: Global, file: &File) -> Result<List<Binding>, NoMemory>
    ensures { IfOk result (λ list. list ≡ rule.definitions file.now) }
{
    let once = Once::of(alloc, file)?;
    let mut early = true;
    let mut out = List::new(alloc);
    for item in file.items.as_slice() {
        add_definition(&once, early, item, &mut out)?;
        early = early && constants_may_follow(item);
    }
    Ok(out)
}

/// Puts what an item defines at the end, where it is known whether constants may stand there.
fn add_definition(
    once: &Once,
    early: bool,
    item: &Item,
    out: &mut List<Binding>,
) -> Result<(), NoMemory>
    ensures { OnOk result (out.new ≡ out.old
        ++ rule.definition (names.line_of (has_once once.now) early item.now)) }
{
    match item {
        Item::Import(_, _, _) => Ok(()),
        Item::Def(func) => add_binding(func.line, &func.name, out),
        Item::Stmt(stmt) => match constant_name(once, early, stmt) {
            Some(name) => add_binding(stmt.line, name, out),
            None => Ok(()),
        },
    }
}

/// The name of the constant that a statement is, or none.
fn constant_name<'a>(once: &Once, early: bool, stmt: &'a Stmt) -> Option<&'a Text>
    ensures { option_map (λ n. n.now) result
        ≡ spec.constant_name (has_once once.now) early stmt.now }
{
    match plain_assignment(stmt) {
        Some((name, right)) if early && once.has(name) && is_literal(right) => Some(name),
        _ => None,
    }
}

fn add_binding(line: u32, name: &Text, out: &mut List<Binding>) -> Result<(), NoMemory>
    ensures { OnOk result (out.new ≡ out.old ++ names.bound_in line name.now ∷ []) }
{
    let name = name.try_clone()?;
    out.add(Binding { line, name })
}

/// The least line of a binding whose name is bound by another before it.
pub fn repeated_line(alloc: Global, bindings: &[Binding]) -> Result<Option<u32>, NoMemory>
    ensures { IfOk result (λ line. line ≡ least (rule.repeats [] bindings.now)) }
{
    let mut before = Names::new(alloc);
    let mut line = None;
    for binding in bindings {
        if before.add(&binding.name)? {
            line = lesser(line, Some(binding.line));
        }
    }
    Ok(line)
}

/// The least line of a binding of a name that no script may bind.
pub fn taken_line(imported: &Names, bindings: &[Binding]) -> Option<u32>
    ensures { result ≡ least (rule.bound_where (rule.is_taken imported.now) bindings.now) }
{
    let mut line = None;
    for binding in bindings {
        if is_taken(imported, &binding.name) {
            line = lesser(line, Some(binding.line));
        }
    }
    line
}

/// The least line of a binding of a name that no module statement may bind.
pub fn rebound_line(imported: &Names, functions: &Names, bindings: &[Binding]) -> Option<u32>
    ensures { result ≡ least (rule.bound_where
        (λ n. rule.is_taken imported.now n || names.is_among functions.now n) bindings.now) }
{
    let mut line = None;
    for binding in bindings {
        if is_taken(imported, &binding.name) || functions.contains(&binding.name) {
            line = lesser(line, Some(binding.line));
        }
    }
    line
}

fn is_taken(imported: &Names, name: &Text) -> bool
    ensures { result ≡ rule.is_taken imported.now name.now }
{
    builtin_named(name).is_some() || is_word(name, "__name__") || imported.contains(name)
}
