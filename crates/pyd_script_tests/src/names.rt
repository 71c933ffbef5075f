//! One script, whose names are told by hand from the rules.

use crate::reading::file_of;
use pyd_names::{
    Binding, NameUse, bindings, builtin_named, constant_marks, constants, distinct,
    function_locals, functions, literal, module_bindings, module_statements, module_uses,
    module_variables, statement_bindings, statement_uses, uses,
};
use pyd_tree::{Expr, Stmt, What};
use pyd_value::{Builtin, List, NoMemory, Text, Value, same};
use std::alloc::{AllocError, Global};
use std::test::Fail;

/// The script, whose lines are counted from 1.
const SCRIPT: &str = "

LEVEL = -3


def f(a, b):
    c += a
    for d in range(len(b)):
        c = d

rows = f(LEVEL)
late = 2
";

// Names separated by commas.
fn texts(alloc: Global, all: &str) -> Result<List<Text>, NoMemory> {
    let mut list = List::new(alloc);
    for part in all.split(',') {
        let text = Text::of(alloc, part)?;
        list.add(text)?;
    }
    Ok(list)
}

// The right side of an assignment.
fn right_side(stmt: &Stmt) -> Option<&Expr> {
    match &stmt.what {
        What::Assign(_, right) => Some(right),
        _ => None,
    }
}

// A line for each use.
fn uses_text(alloc: Global, list: &[NameUse]) -> Result<String, AllocError> {
    let mut text = String::new(alloc);
    for each in list {
        let line = format!(in alloc; "{} {} {:?}; ", each.line, each.name.as_str(), each.manner)?;
        text.push_str(line.as_str())?;
    }
    Ok(text)
}

// A line for each binding.
fn bindings_text(alloc: Global, list: &[Binding]) -> Result<String, AllocError> {
    let mut text = String::new(alloc);
    for each in list {
        let line = format!(in alloc; "{} {}; ", each.line, each.name.as_str())?;
        text.push_str(line.as_str())?;
    }
    Ok(text)
}

// The names, each behind the last.
fn names_text(alloc: Global, list: &[Text]) -> Result<String, AllocError> {
    let mut text = String::new(alloc);
    for each in list {
        text.push_str(each.as_str())?;
        text.push_str(" ")?;
    }
    Ok(text)
}

#[test]
fn a_function_binds_and_uses(rt: HostRuntime) -> Result<(), Fail> {
    let alloc = rt.alloc();
    let file = file_of(alloc, SCRIPT).ok_or("no file")?;
    let all = functions(alloc, &file)?;
    let func = *all.get(0).ok_or("no function")?;
    let bound = bindings(alloc, &func.body)?;
    let text = bindings_text(alloc, bound.as_slice())?;
    assert_eq!(rt; text.as_str(), "7 c; 8 d; 9 c; ");
    let local = function_locals(alloc, func)?;
    let text = names_text(alloc, local.as_slice())?;
    assert_eq!(rt; text.as_str(), "a b c d ");
    let used = uses(alloc, &func.body)?;
    let text = uses_text(alloc, used.as_slice())?;
    let expected = "7 c Read; 7 a Read; 8 range Iterated; 8 len Called; 8 b Read; 9 d Read; ";
    assert_eq!(rt; text.as_str(), expected);
    let looped = func.body.stmts.get(1).ok_or("no loop")?;
    assert_eq!(rt; statement_bindings(alloc, looped)?.len(), 2);
    assert_eq!(rt; statement_uses(alloc, looped)?.len(), 4);
    Ok(())
}

#[test]
fn a_module_binds_and_uses(rt: HostRuntime) -> Result<(), Fail> {
    let alloc = rt.alloc();
    let file = file_of(alloc, SCRIPT).ok_or("no file")?;
    let bound = module_bindings(alloc, &file)?;
    let text = bindings_text(alloc, bound.as_slice())?;
    assert_eq!(rt; text.as_str(), "11 rows; 12 late; ");
    let variables = module_variables(alloc, &file)?;
    let text = names_text(alloc, variables.as_slice())?;
    assert_eq!(rt; text.as_str(), "rows late ");
    let used = module_uses(alloc, &file)?;
    let text = uses_text(alloc, used.as_slice())?;
    assert_eq!(rt; text.as_str(), "11 f Called; 11 LEVEL Read; ");
    let marks = constant_marks(alloc, &file)?;
    assert_eq!(rt; marks.as_slice(), [true, false, false, false].as_slice());
    assert_eq!(rt; module_statements(alloc, &file)?.len(), 2);
    assert_eq!(rt; functions(alloc, &file)?.len(), 1);
    Ok(())
}

#[test]
fn a_module_has_constants(rt: HostRuntime) -> Result<(), Fail> {
    let alloc = rt.alloc();
    let file = file_of(alloc, SCRIPT).ok_or("no file")?;
    let made = constants(alloc, &file)?;
    assert_eq!(rt; made.len(), 2);
    let first = made.get(0).ok_or("no first constant")?;
    assert_eq!(rt; first.0.as_str(), "__name__");
    let second = made.get(1).ok_or("no second constant")?;
    assert_eq!(rt; second.0.as_str(), "LEVEL");
    assert!(rt; same(&second.1, &Value::Int(-3)));
    let statements = module_statements(alloc, &file)?;
    let late = *statements.get(1).ok_or("no second statement")?;
    let two = right_side(late).ok_or("no assignment")?;
    assert!(rt; literal(alloc, two)?.is_some());
    Ok(())
}

#[test]
fn names_come_once(rt: HostRuntime) -> Result<(), Fail> {
    let alloc = rt.alloc();
    let names = texts(alloc, "a,b,a,c,b")?;
    let once = distinct(alloc, names.as_slice())?;
    let text = names_text(alloc, once.as_slice())?;
    assert_eq!(rt; text.as_str(), "a b c ");
    assert_eq!(rt;
        builtin_named(&Text::of(alloc, "range")?),
        Some(Builtin::Range)
    );
    Ok(())
}
