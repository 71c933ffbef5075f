//! Statements and expressions of a small script, looked up by their numbers.

use pyd_scope::Program;
use pyd_top::check_source;
use pyd_tree::Expr;
use std::alloc::Global;
use std::test::Fail;

const SCRIPT: &str = "\
c = 1
def f(x):
    while x[0:y]:
        if a if b else c:
            pass
        else:
            return x
    return 1
print(c)
";

fn program(alloc: Global) -> Result<Program, Fail> {
    match check_source(alloc, SCRIPT.as_bytes()) {
        Ok(program) => Ok(program),
        Err(_) => Err(Fail::from("refused")),
    }
}

// the line of a statement, its first expression's number, and the numbers behind it
fn row(program: &Program, routine: u32, statement: u32) -> Option<(u32, u32, u32, u32)> {
    let place = program.place(routine, statement)?;
    let line = place.stmts.first()?.line;
    Some((
        line,
        place.expression,
        place.behind_statement,
        place.behind_expression,
    ))
}

// an expression's name, if it is one
fn named<'p>(program: &'p Program, routine: u32, number: u32) -> Option<&'p str> {
    match program.expression(routine, number)? {
        Expr::Name(name) => Some(name.as_str()),
        _ => Some(""),
    }
}

#[test]
fn statements_are_found(rt: HostRuntime) -> Result<(), Fail> {
    let program = program(rt.alloc())?;
    assert_eq!(rt; row(&program, 1, 0), Some((3, 0, 4, 9)));
    assert_eq!(rt; row(&program, 1, 1), Some((4, 4, 4, 9)));
    assert_eq!(rt; row(&program, 1, 2), Some((5, 8, 3, 8)));
    assert_eq!(rt; row(&program, 1, 3), Some((7, 8, 4, 9)));
    assert_eq!(rt; row(&program, 1, 4), Some((8, 9, 5, 10)));
    assert_eq!(rt; row(&program, 1, 5), None);
    assert_eq!(rt; row(&program, 0, 0), Some((9, 0, 1, 2)));
    assert_eq!(rt; row(&program, 0, 1), None);
    assert_eq!(rt; row(&program, 2, 0), None);
    Ok(())
}

#[test]
fn expressions_are_found(rt: HostRuntime) -> Result<(), Fail> {
    let program = program(rt.alloc())?;
    let names = ["", "x", "", "y", "", "a", "b", "c", "x", ""];
    for number in 0..10 {
        let found = named(&program, 1, number);
        assert_eq!(rt; found, names.get(number as usize).copied());
    }
    assert_eq!(rt; named(&program, 1, 10), None);
    assert_eq!(rt; named(&program, 0, 1), Some("c"));
    assert_eq!(rt; named(&program, 2, 0), None);
    Ok(())
}

#[test]
fn ends_are_found(rt: HostRuntime) -> Result<(), Fail> {
    let program = program(rt.alloc())?;
    let ends = [4, 2, 3, 4, 8, 6, 7, 8, 9, 10];
    for number in 0..10 {
        let found = program.expression_behind(1, number);
        assert_eq!(rt; found, ends.get(number as usize).copied());
    }
    assert_eq!(rt; program.expression_behind(1, 10), None);
    assert_eq!(rt; program.expression_behind(0, 0), Some(2));
    Ok(())
}
