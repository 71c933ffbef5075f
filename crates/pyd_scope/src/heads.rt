//! Where `def`s, imports and constants stand among the lines of a module.
ghost use Rattle.std.specs.Prelude.{◌≡◌, [], if◌then◌else◌};
ghost use Rattle.pyd_scope.specs.Least.{least};
ghost use Rattle.pyd_scope.specs.Rules as rule;

use crate::least::lesser;
use pyd_names::{is_literal, is_string_line, plain_assignment};
use pyd_tree::{File, Item, Stmt};

/// The least line of a `def` or import that has before it an item that isn't a string line, an
/// import, a `def` or a plain assignment.
pub fn late_def(file: &File) -> Option<u32>
    ensures { result ≡ least (rule.late_def file.now) }
{
    let mut early = true;
    let mut line = None;
    for item in file.items.as_slice() {
        line = lesser(line, late_line(early, item));
        early = early && defs_may_follow(item);
    }
    line
}

fn late_line(early: bool, item: &Item) -> Option<u32>
    ensures { result ≡ least (if early then [] else rule.head_line item.now) }
{
    if early {
        return None;
    }
    match item {
        Item::Import(line, _, _) => Some(*line),
        Item::Def(func) => Some(func.line),
        Item::Stmt(_) => None,
    }
}

fn defs_may_follow(item: &Item) -> bool
    ensures { result ≡ rule.defs_may_follow item.now }
{
    match item {
        Item::Import(_, _, _) | Item::Def(_) => true,
        Item::Stmt(stmt) => is_string_line(stmt) || plain_assignment(stmt).is_some(),
    }
}

/// The least line of a plain assignment of what isn't a literal that has a `def` or import below it.
pub fn not_constant(file: &File) -> Option<u32>
    ensures { result ≡ least (rule.not_constant file.now) }
{
    let mut above = None;
    let mut line = None;
    for item in file.items.as_slice() {
        if is_head(item) {
            line = lesser(line, above);
            above = None;
        } else {
            above = lesser(above, computed_line(item));
        }
    }
    line
}

fn is_head(item: &Item) -> bool
    ensures { result ≡ rule.is_head item.now }
{
    match item {
        Item::Import(_, _, _) | Item::Def(_) => true,
        Item::Stmt(_) => false,
    }
}

/// The line of a plain assignment of what isn't a literal.
fn computed_line(item: &Item) -> Option<u32>
    ensures { result ≡ least (rule.computed_line item.now) }
{
    match item {
        Item::Stmt(stmt) if is_computed(stmt) => Some(stmt.line),
        Item::Import(_, _, _) | Item::Def(_) | Item::Stmt(_) => None,
    }
}

fn is_computed(stmt: &Stmt) -> bool
    ensures { result ≡ rule.is_computed stmt.now }
{
    match plain_assignment(stmt) {
        None => false,
        Some((_, right)) => !is_literal(right),
    }
}
