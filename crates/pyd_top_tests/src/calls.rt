//! Calls of functions from outside, over the programs of small sources.
ghost use Rattle.std.specs.Prelude.{◌≡◌, length, IfOk, IsTrue, slice_get};
ghost use Rattle.pyd_eval.specs.Whole.{IsCalled};

use crate::reading::unfolded;
use pyd_eval::call;
use pyd_meaning::{Limits, Ran};
use pyd_names::functions;
use pyd_scope::Program;
use pyd_top::check_source;
use pyd_tree::Func;
use pyd_value::{Fault, List, NoMemory, Outcome, Text, Value};
use std::alloc::{AllocError, Global};
use std::test::Fail;

/// A call a line, of the members of the constant `GIVEN`: its source; the turns and the depth that
/// are allowed, the depth of the call and the function's number; the fault, or nothing where it
/// gives the constant `GIVES`; what it prints. For a line end stands ¶.
const CALLS: &str = "GIVEN = (-7, 2)¶GIVES = -4¶def f(a, b):¶    return a // b¶→9 9 1 1→→
GIVEN = (1, True)¶GIVES = True¶def f(a, b):¶    return a == b¶→9 9 1 1→→
GIVEN = (\"né\", 2)¶GIVES = \"éné\"¶def f(a, k):¶    return (a * k)[1:]¶→9 9 1 1→→
GIVEN = (1, (\"a\", None), True)¶GIVES = (True, (\"a\", None), (1,))¶def f(a, b, c):¶    return c, b, (a,)¶→9 9 1 1→→
GIVEN = ()¶GIVES = None¶def f():¶    pass¶→9 9 1 1→→
GIVEN = (2, \"x\")¶GIVES = 3¶def f(n, s):¶    for i in range(n):¶        print(s, i)¶    print()¶    return n + 1¶→9 9 1 1→→x 0¶x 1¶¶
GIVEN = (0,)¶def g(x):¶    print(\"g\", x)¶    return 1 // x¶¶def f(x):¶    print(\"f\", x)¶    y = g(x)¶    print(y)¶→9 9 1 2→ZeroDivisionError: line 4→f 0¶g 0¶
GIVEN = (5,)¶GIVES = 6¶def f(x):¶    print(\"f\", x)¶    return g(x)¶¶def g(x):¶    return x + 1¶→9 3 2 1→→f 5¶
GIVEN = (5,)¶def f(x):¶    print(\"f\", x)¶    return g(x)¶¶def g(x):¶    return x + 1¶→9 3 3 1→LIMIT DepthLimit: line 4→f 5¶
GIVEN = (5,)¶GIVES = 6¶def f(x):¶    print(\"f\", x)¶    return g(x)¶¶def g(x):¶    return x + 1¶→9 3 3 2→→
GIVEN = (3,)¶GIVES = 6¶def f(n):¶    if n == 0:¶        return 0¶    print(n)¶    return n + f(n - 1)¶→9 4 1 1→→3¶2¶1¶
GIVEN = (4,)¶def f(n):¶    if n == 0:¶        return 0¶    print(n)¶    return n + f(n - 1)¶→9 4 1 1→LIMIT DepthLimit: line 6→4¶3¶2¶1¶
GIVEN = (3,)¶GIVES = 3¶def f(n):¶    k = 0¶    for i in range(n):¶        print(i)¶        k += 1¶    return k¶→3 9 1 1→→0¶1¶2¶
GIVEN = (4,)¶def f(n):¶    k = 0¶    for i in range(n):¶        print(i)¶        k += 1¶    return k¶→3 9 1 1→LIMIT TurnLimit: line 4→0¶1¶2¶
GIVEN = (3,)¶GIVES = 3¶def f(n):¶    k = 0¶    while k < n:¶        k += 1¶    return k¶→3 9 1 1→→
GIVEN = (4,)¶def f(n):¶    k = 0¶    while k < n:¶        k += 1¶    return k¶→3 9 1 1→LIMIT TurnLimit: line 4→
GIVEN = ((1, 2, 3),)¶def f(t):¶    print(\"in\")¶    a, b = t¶    print(a, b)¶→9 9 1 1→ValueError: line 4→in¶
GIVEN = (7,)¶def f(t):¶    print(\"in\")¶    a, b = t¶    print(a, b)¶→9 9 1 1→TypeError: line 4→in¶
GIVEN = (2,)¶GIVES = 22¶def g(x):¶    print(\"g\", x)¶    return x * 10¶¶def f(x):¶    x += g(x)¶    print(\"f\", x)¶    return x¶→9 9 1 2→→g 2¶f 22¶
GIVEN = (False,)¶def g(x):¶    print(\"g\", x)¶    return x * 10¶¶def f(c):¶    if c:¶        x = 1¶    x += g(2)¶    return x¶→9 9 1 2→UnboundLocalError: line 9→
GIVEN = (True,)¶GIVES = 1¶def f(c):¶    if c:¶        x = 1¶    return x¶→9 9 1 1→→
GIVEN = (False,)¶def f(c):¶    if c:¶        x = 1¶    return x¶→9 9 1 1→UnboundLocalError: line 5→
GIVEN = (3,)¶GIVES = (1, 1)¶def f(n):¶    i = 0¶    while True:¶        for j in range(n):¶            print(i, j)¶            if i * j == 1:¶                return i, j¶        i += 1¶    print(\"out\")¶→9 9 1 1→→0 0¶0 1¶0 2¶1 0¶1 1¶";

/// A row of the table.
#[derive(Clone, Copy)]
struct Row<'a> {
    source: &'a str,
    limits: Limits,
    depth: u32,
    number: u32,
    fault: &'a str,
    lines: &'a str,
}

fn number_of(word: Option<&str>) -> u32 {
    word.unwrap_or("").parse().unwrap_or(0)
}

fn row_of(row: &str) -> Row<'_> {
    let (source, rest) = row.split_once('\u{2192}').unwrap_or((row, ""));
    let (numbers, rest) = rest.split_once('\u{2192}').unwrap_or((rest, ""));
    let (fault, lines) = rest.split_once('\u{2192}').unwrap_or((rest, ""));
    let mut words = numbers.split(' ');
    let turns = u64::from(number_of(words.next()));
    let deepest = number_of(words.next());
    let depth = number_of(words.next());
    let number = number_of(words.next());
    Row {
        source,
        limits: Limits {
            turns,
            depth: deepest,
        },
        depth,
        number,
        fault,
        lines,
    }
}

/// The members of the constant `GIVEN`, which stands first.
fn given(program: &Program) -> Result<List<Value>, Fail> {
    let Some((_, Value::Tuple(members))) = program.constants.get(1) else {
        return Err(Fail::new("GIVEN"));
    };
    Ok(members.try_clone()?)
}

/// Whether a program has a function with this number that takes so many arguments.
fn is_called(alloc: Global, program: &Program, number: u32, count: usize) -> Result<bool, Fail>
    ensures { IfOk result (λ called. IsTrue called → IsCalled program.now.file number count) }
{
    let functions = functions(alloc, &program.file)?;
    if number == 0 {
        return Ok(false);
    }
    match nth(functions.as_slice(), number as usize - 1) {
        Some(func) => Ok(func.params.len() == count),
        None => Ok(false),
    }
}

/// The function at a place, counted from 0.
fn nth<'a>(functions: &[&'a Func], at: usize) -> Option<&'a Func>
    ensures { result ≡ slice_get functions.now at }
{
    functions.get(at).copied()
}

/// The text of a fault.
fn fault_text(alloc: Global, fault: Fault) -> Result<String, AllocError> {
    match fault {
        Fault::Raised(kind, line) => format!(in alloc; "{kind:?}: line {line}"),
        Fault::Limit(limit, line) => format!(in alloc; "LIMIT {limit:?}Limit: line {line}"),
    }
}

/// Whether a call gave the fault of its row, or where there is none the constant `GIVES`.
fn gave(alloc: Global, program: &Program, outcome: &Outcome, fault: &str) -> Result<bool, Fail> {
    match outcome {
        Outcome::Ok(value) => Ok(match program.constants.get(2) {
            Some((_, gives)) => fault.is_empty() && *value == *gives,
            None => false,
        }),
        Outcome::Fault(other) => Ok(fault_text(alloc, *other)?.as_str() == fault),
    }
}

/// Whether these lines were printed.
fn printed(alloc: Global, lines: &[Text], wanted: &str) -> Result<bool, Fail> {
    let mut text = String::new(alloc);
    for line in lines {
        text.push_str(line.as_str())?;
        text.push('\n')?;
    }
    Ok(text.as_str() == unfolded(alloc, wanted)?.as_str())
}

/// Whether a call gave and printed what its row says.
fn is_right(alloc: Global, program: &Program, ran: &Ran, row: &Row<'_>) -> Result<bool, Fail> {
    Ok(
        gave(alloc, program, &ran.outcome, row.fault)?
            && printed(alloc, ran.lines.as_slice(), row.lines)?,
    )
}

/// Whether the call of a row goes as the row says.
fn goes(alloc: Global, program: &Program, row: &Row<'_>) -> Result<bool, Fail> {
    let args = given(program)?;
    if !is_called(alloc, program, row.number, args.len())? {
        return Err(Fail::new("the function"));
    }
    if row.depth < 1 || row.limits.depth < row.depth {
        return Err(Fail::new("the depth"));
    }
    match call(alloc, program, row.limits, row.number, args, row.depth) {
        Ok(ran) => {
            let right = is_right(alloc, program, &ran, row);
            drop(ran);
            right
        }
        Err((args, NoMemory)) => {
            drop(args);
            Err(Fail::new("memory"))
        }
    }
}

#[test]
fn functions_are_called_from_outside(rt: HostRuntime) -> Result<(), Fail> {
    for text in CALLS.lines() {
        let row = row_of(text);
        let source = unfolded(rt.alloc(), row.source)?;
        let Ok(program) = check_source(rt.alloc(), source.as_bytes()) else {
            return Err(Fail::new(text));
        };
        let right = goes(rt.alloc(), &program, &row)?;
        assert!(rt; right, "{text}");
    }
    Ok(())
}
