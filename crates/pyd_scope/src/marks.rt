//! Decorators and the imports that name them.
ghost use Rattle.std.specs.Prelude.{◌≡◌, [], ◌++◌, IfOk, OnOk, IsTrue};
ghost use Rattle.std.specs.List.{list_all};
ghost use Rattle.std.specs.Char.{is_ascii};
ghost use Rattle.pyd_names.specs.Binding.{is_among, imports_in};
ghost use Rattle.pyd_scope.specs.Least.{least};
ghost use Rattle.pyd_scope.specs.Rules as rule;

use crate::least::lesser;
use crate::names::Names;
use crate::words::{is_mark, is_word};
use pyd_tree::{File, Func, Item};
use pyd_value::{NoMemory, Text};
use std::alloc::Global;

/// The least line of a decorator other than `schedule` and `functional`, the same twice on one
/// `def`, or one that no import above names, or of an import from another module or of another name.
pub fn decorator(alloc: Global, file: &File) -> Result<Option<u32>, NoMemory>
    ensures { IfOk result (λ line. line ≡ least (rule.decorator file.now)) }
{
    let mut above = Names::new(alloc);
    let mut line = None;
    for item in file.items.as_slice() {
        line = lesser(line, bad_in(alloc, &above, item)?);
        add_imports(&mut above, item)?;
    }
    Ok(line)
}

/// The least such line of an item, from the names imported above.
fn bad_in(alloc: Global, above: &Names, item: &Item) -> Result<Option<u32>, NoMemory>
    ensures { IfOk result (λ line. line ≡ least (rule.bad_in above.now item.now)) }
{
    match item {
        Item::Import(line, source, names) => {
            if is_good_import(source, names.as_slice()) {
                Ok(None)
            } else {
                Ok(Some(*line))
            }
        }
        Item::Def(func) => bad_marks(alloc, above, func.marks.as_slice()),
        Item::Stmt(_) => Ok(None),
    }
}

/// The least line of a decorator that is unknown, repeated, or named by no import above.
fn bad_marks(alloc: Global, above: &Names, marks: &[(u32, Text)]) -> Result<Option<u32>, NoMemory>
    ensures { IfOk result (λ line. line ≡ least (rule.bad_marks above.now [] marks.now)) }
{
    let mut before = Names::new(alloc);
    let mut line = None;
    for mark in marks {
        line = lesser(line, bad_mark(above, &before, mark));
        before.add(&mark.1)?;
    }
    Ok(line)
}

fn bad_mark(above: &Names, before: &Names, mark: &(u32, Text)) -> Option<u32>
    ensures { result ≡ least (rule.bad_mark above.now before.now mark.now) }
{
    if is_mark(&mark.1) && above.contains(&mark.1) && !before.contains(&mark.1) {
        None
    } else {
        Some(mark.0)
    }
}

/// Whether an import is from `pydron`, of names that it has.
fn is_good_import(source: &Text, names: &[Text]) -> bool
    ensures { result ≡ rule.is_good_import source.now names.now }
{
    is_word(source, "pydron") && are_marks(names)
}

fn are_marks(names: &[Text]) -> bool
    ensures { result ≡ list_all (is_among rule.mark_names) names.now }
{
    for name in names {
        if !is_mark(name) {
            return false;
        }
    }
    true
}

/// Puts the names of an import at the end.
pub fn add_imports(above: &mut Names, item: &Item) -> Result<(), NoMemory>
    ensures { OnOk result (above.new ≡ above.old ++ imports_in item.now) }
{
    match item {
        Item::Import(_, _, names) => above.add_all(names.as_slice()),
        Item::Def(_) | Item::Stmt(_) => Ok(()),
    }
}

/// Whether a function has the decorator of this name, which is ASCII.
pub fn has_mark(func: &Func, word: &str) -> bool
    requires { IsTrue (list_all is_ascii word.now) }
    ensures { result ≡ rule.has_mark word.now func.now }
{
    for mark in func.marks.as_slice() {
        if is_word(&mark.1, word) {
            return true;
        }
    }
    false
}

/// Whether a function is `@functional`.
pub fn is_functional(func: &Func) -> bool
    ensures { result ≡ rule.is_functional func.now }
{
    has_mark(func, "functional")
}
