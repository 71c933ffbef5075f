//! The module's own lines: constants, module statements and functions.
ghost use Rattle.std.specs.Prelude.{◌≡◌, [], ◌∷◌, ◌++◌, map, option_map, IfOk, OnOk};
ghost use Rattle.pyd_names.specs.Binding as spec;
ghost use Rattle.pyd_names.specs.Once.{Tells, assigns_once, constants_at, is_constant_at, statement_at};
ghost use Rattle.pyd_names.specs.Uses as uses;

use crate::binding::add_statement as add_bindings;
use crate::line::{constants_may_follow, plain_assignment};
use crate::literals::{is_literal, literal};
use crate::name_use::add_statement as add_uses;
use crate::once::Once;
use crate::{Binding, NameUse};
use pyd_tree::{File, Func, Item, Stmt};
use pyd_value::{List, NoMemory, Text, Value};
use std::alloc::Global;

/// The constants with their values: `__name__`, and then those of the file in text order.
pub fn constants(alloc: Global, file: &File) -> Result<List<(Text, Value)>, NoMemory>
    ensures { IfOk result (λ list. list ≡ spec.constants file.now) }
{
    let once = bound_once(alloc, file)?;
    let mut early = true;
    let mut out = List::new(alloc);
    add_name_constant(alloc, &mut out)?;
    for item in file.items.as_slice() {
        add_constant(alloc, &once, early, item, &mut out)?;
        early = early && constants_may_follow(item);
    }
    Ok(out)
}

/// The module statements in text order: what is no import, no `def` and no constant.
pub fn module_statements(alloc: Global, file: &File) -> Result<Vec<&Stmt>, NoMemory>
    ensures { IfOk result (λ list. map (λ s. s.now) list.items ≡ spec.module_statements file.now) }
{
    let once = bound_once(alloc, file)?;
    let mut early = true;
    let mut out = Vec::new(alloc);
    for item in file.items.as_slice() {
        if let Some(stmt) = statement_of(&once, early, item) {
            out.push(stmt)?;
        }
        early = early && constants_may_follow(item);
    }
    Ok(out)
}

/// For each item of a file whether it is a constant.
pub fn constant_marks(alloc: Global, file: &File) -> Result<Vec<bool>, NoMemory>
    ensures { IfOk result (λ marks. marks.items ≡ spec.constant_marks file.now) }
{
    let once = bound_once(alloc, file)?;
    let mut early = true;
    let mut marks = Vec::new(alloc);
    for item in file.items.as_slice() {
        marks.push(is_constant_item(&once, early, item))?;
        early = early && constants_may_follow(item);
    }
    Ok(marks)
}

/// The functions in text order; the first is routine 1.
pub fn functions(alloc: Global, file: &File) -> Result<Vec<&Func>, NoMemory>
    ensures { IfOk result (λ list. map (λ f. f.now) list.items ≡ spec.functions file.now) }
{
    let mut out = Vec::new(alloc);
    for item in file.items.as_slice() {
        if let Item::Def(func) = item {
            out.push(func)?;
        }
    }
    Ok(out)
}

/// What the module statements bind, in text order.
pub fn module_bindings(alloc: Global, file: &File) -> Result<List<Binding>, NoMemory>
    ensures { IfOk result (λ list. list ≡ spec.module_bindings file.now) }
{
    let statements = module_statements(alloc, file)?;
    let mut out = List::new(alloc);
    for stmt in &statements {
        add_bindings(stmt, &mut out)?;
    }
    Ok(out)
}

/// What the module statements use, in text order.
pub fn module_uses(alloc: Global, file: &File) -> Result<List<NameUse>, NoMemory>
    ensures { IfOk result (λ list. list ≡ uses.module_uses file.now) }
{
    let statements = module_statements(alloc, file)?;
    let mut out = List::new(alloc);
    for stmt in &statements {
        add_uses(stmt, &mut out)?;
    }
    Ok(out)
}

/// Tells of each name whether the module's statements bind it once.
fn bound_once(alloc: Global, file: &File) -> Result<Once, NoMemory>
    ensures { IfOk result (λ once. Tells once (spec.binds_once file.now)) }
{
    let mut bound = List::new(alloc);
    for item in file.items.as_slice() {
        add_item(item, &mut bound)?;
    }
    Once::of(alloc, bound.as_slice())
}

fn add_item(item: &Item, out: &mut List<Binding>) -> Result<(), NoMemory>
    ensures { OnOk result (out.new ≡ out.old ++ spec.item_bindings item.now) }
{
    match item {
        Item::Stmt(stmt) => add_bindings(stmt, out),
        Item::Import(_, _, _) | Item::Def(_) => Ok(()),
    }
}

fn add_name_constant(alloc: Global, out: &mut List<(Text, Value)>) -> Result<(), NoMemory>
    ensures { OnOk result (out.new ≡ out.old ++ spec.name_constant ∷ []) }
{
    let name = Text::of(alloc, "__name__")?;
    let value = Text::of(alloc, "__main__")?;
    out.add((name, Value::Text(value)))
}

/// Puts the constant that an item is at the end, if it is one.
fn add_constant(
    alloc: Global,
    once: &Once,
    early: bool,
    item: &Item,
    out: &mut List<(Text, Value)>,
) -> Result<(), NoMemory>
    ensures { OnOk result (out.new ≡ out.old ++ constants_at once.now early item.now) }
{
    let Item::Stmt(stmt) = item else {
        return Ok(());
    };
    let Some((name, right)) = plain_assignment(stmt) else {
        return Ok(());
    };
    if !early || !once.has(name) {
        return Ok(());
    }
    let name = name.try_clone()?;
    match literal(alloc, right)? {
        Some(value) => out.add((name, value)),
        None => Ok(()),
    }
}

/// The module statement that an item is, or none.
fn statement_of<'a>(once: &Once, early: bool, item: &'a Item) -> Option<&'a Stmt>
    ensures { option_map (λ s. s.now) result ≡ statement_at once.now early item.now }
{
    match item {
        Item::Stmt(stmt) if !(early && is_constant(once, stmt)) => Some(stmt),
        Item::Import(_, _, _) | Item::Def(_) | Item::Stmt(_) => None,
    }
}

/// Whether an item is a constant.
fn is_constant_item(once: &Once, early: bool, item: &Item) -> bool
    ensures { result ≡ is_constant_at once.now early item.now }
{
    match item {
        Item::Stmt(stmt) => early && is_constant(once, stmt),
        Item::Import(_, _, _) | Item::Def(_) => false,
    }
}

/// Whether a statement is a plain assignment of a literal to a name that is bound once.
fn is_constant(once: &Once, stmt: &Stmt) -> bool
    ensures { result ≡ assigns_once once.now stmt.now }
{
    match plain_assignment(stmt) {
        Some((name, right)) => is_literal(right) && once.has(name),
        None => false,
    }
}
