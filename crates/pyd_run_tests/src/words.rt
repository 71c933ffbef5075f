//! What words ask for, row by row.

use pyd_words::*;
use std::alloc::{AllocError, Global};
use std::test::Fail;

/// Words and their answers. `~` is the empty word. A plan is its mode, machines, workers, turns, depth,
/// window, way to place nodes and number, and then its losses.
const ANSWERS: &str = "\
fly = BadMode
run --machines a --turns 0 = BadNumber
run --turns 0 --lose x = OutOfRange
run --place far = BadNumber
run --lose 5 = BadScript
run --lose 5: = BadScript
run --lose :1 = BadScript
run --lose 5:1, = BadScript
run --lose 4294967296:0 = BadScript
demo = NumberWhere
run --number 1 = NumberWhere
run --lose = Line
--help = Line
 = Line
run --machines 2 --lose 4294967295:0 = Run 2 1 100000 64 1000 round 0 4294967295:0
run --lose 5:1 = NoMachine
run --machines 3 --lose 5:1,9:1 = TwiceLost
run --machines 3 --lose 5:9 = NoMachine
run --machines 2 --lose 1:0,2:1 = AllLost
run = Run 1 1 100000 64 1000 round 0
trace = Trace 1 1 100000 64 1000 round 0
check = Check 1 1 100000 64 1000 round 0
graph = Graph 1 1 100000 64 1000 round 0
replay = Replay 1 1 100000 64 1000 round 0
demo --number 7 = Demo 1 1 100000 64 1000 round 7
Run = BadMode
runs = BadMode
ru = BadMode
~ = BadMode
--turns 5 run --machines 3 = Run 3 1 5 64 1000 round 0
--machines 3 --turns 5 run = Run 3 1 5 64 1000 round 0
demo --place near --number 18446744073709551615 --window 2 --depth 3 --turns 4 --workers 2 --machines 5 --lose 9:4,2:0 = Demo 5 2 4 3 2 near 18446744073709551615 2:0 9:4
--lose 9:4,2:0 --machines 5 --workers 2 --turns 4 --depth 3 --window 2 --place near --number 6 demo = Demo 5 2 4 3 2 near 6 2:0 9:4
run --machines 1 --machines 1 = Line
run --workers 1 --workers 1 = Line
run --turns 1 --turns 1 = Line
run --depth 1 --depth 1 = Line
run --window 1 --window 1 = Line
run --place near --place near = Line
run --lose 5:0 --lose 5:0 = Line
demo --number 1 --number 1 = Line
run --machines=3 = Run 3 1 100000 64 1000 round 0
-- run = Run 1 1 100000 64 1000 round 0
run -- = Run 1 1 100000 64 1000 round 0
--turns 5 -- run = Run 1 1 5 64 1000 round 0
-- --turns = BadMode
-- run --turns 5 = Line
run trace = Line
-h = Line
run -h = Line
run --help = Line
help = BadMode
--version = Line
-V = Line
run -t 5 = Line
run --turn 5 = Line
run --Turns 5 = Line
run --turns = Line
--turns 5 = Line
--turns run = Line
~ run = Line
run ~ = Line
run --turns -5 = Line
run --lose -1:0 = Line
run --turns=-5 = BadNumber
run --turns ~ = BadNumber
run --turns= = BadNumber
run --place= = BadNumber
run --lose= = BadScript
run --lose ~ = BadScript
run --turns 00000000000000000005 = Run 1 1 5 64 1000 round 0
run --turns 000000000000000000005 = BadNumber
demo --number 18446744073709551616 = OutOfRange
demo --number 99999999999999999999 = OutOfRange
demo --number 100000000000000000000 = BadNumber
run --turns 99999999999999999999 = OutOfRange
run --turns +5 = BadNumber
run --turns 5_0 = BadNumber
run --turns 0x5 = BadNumber
run --turns 5.0 = BadNumber
run --turns ٥ = BadNumber
run --turns 5a = BadNumber
run --machines 0 = OutOfRange
run --machines 1 = Run 1 1 100000 64 1000 round 0
run --machines 16 = Run 16 1 100000 64 1000 round 0
run --machines 17 = OutOfRange
run --workers 0 = OutOfRange
run --workers 1 = Run 1 1 100000 64 1000 round 0
run --workers 4 = Run 1 4 100000 64 1000 round 0
run --workers 5 = OutOfRange
run --turns 0 = OutOfRange
run --turns 1 = Run 1 1 1 64 1000 round 0
run --turns 1000000 = Run 1 1 1000000 64 1000 round 0
run --turns 1000001 = OutOfRange
run --depth 0 = OutOfRange
run --depth 1 = Run 1 1 100000 1 1000 round 0
run --depth 64 = Run 1 1 100000 64 1000 round 0
run --depth 65 = OutOfRange
run --window 0 = OutOfRange
run --window 1 = Run 1 1 100000 64 1 round 0
run --window 100000 = Run 1 1 100000 64 100000 round 0
run --window 100001 = OutOfRange
demo --number 0 = Demo 1 1 100000 64 1000 round 0
run --place round = Run 1 1 100000 64 1000 round 0
run --place near = Run 1 1 100000 64 1000 near 0
run --place Near = BadNumber
run --machines 16 --lose 20:0,19:1,18:2,17:3,16:4,15:5,14:6,13:7,12:8,11:9,10:10,9:11,8:12,7:13,6:14 = Run 16 1 100000 64 1000 round 0 6:14 7:13 8:12 9:11 10:10 11:9 12:8 13:7 14:6 15:5 16:4 17:3 18:2 19:1 20:0
run --machines 16 --lose 20:0,19:1,18:2,17:3,16:4,15:5,14:6,13:7,12:8,11:9,10:10,9:11,8:12,7:13,6:14,3:15 = AllLost
run --machines 5 --lose 9:1,5:2,9:0,5:3 = Run 5 1 100000 64 1000 round 0 5:2 5:3 9:1 9:0
run --machines 4 --lose 0000000001:0000000003 = Run 4 1 100000 64 1000 round 0 1:3
run --machines 4 --lose 00000000001:3 = BadScript
run --machines 4 --lose 1:00000000003 = BadScript
run --machines 4 --lose 1:4294967295 = NoMachine
run --machines 4 --lose 1:4294967296 = BadScript
run --machines 4 --lose 1:4 = NoMachine
run --machines 4 --lose 5:1:2 = BadScript
run --machines 4 --lose 5:1,,6:0 = BadScript
run --machines 4 --lose ,5:1 = BadScript
run --machines 4 --lose 5:+1 = BadScript
run --machines 4 --lose 5;1 = BadScript
run --machines 4 --lose : = BadScript
run --machines 4 --lose , = BadScript
run --machines 4 --lose 5:1,6:1,7:1 = TwiceLost
run --machines 4 --lose 5:1,6:2,7:1 = TwiceLost
run --machines 4 --lose 5:0,6:1,7:2 = Run 4 1 100000 64 1000 round 0 5:0 6:1 7:2
run --lose 5:0 = AllLost
check --machines 4 --lose 5:1 = Check 4 1 100000 64 1000 round 0 5:1
fly --foo = Line
run --turns a --foo = Line
run --turns 0 --foo = Line
run --lose x --foo = Line
run --lose 5:1 --foo = Line
run --machines 3 --lose 5:1,9:1 --foo = Line
run --lose 5:0 --foo = Line
demo --foo = Line
fly --turns a = BadMode
fly --turns 0 = BadMode
fly --lose x = BadMode
fly --lose 5:1 = BadMode
fly --machines 3 --lose 5:1,9:1 = BadMode
fly --lose 5:0 = BadMode
fly --number 1 = BadMode
run --turns 0 --place far = BadNumber
run --lose x --place far = BadNumber
run --lose 5:1 --place far = BadNumber
run --machines 3 --lose 5:1,9:1 --place far = BadNumber
run --lose 5:0 --place far = BadNumber
demo --place far = BadNumber
run --lose x --turns 0 = OutOfRange
run --lose 5:1 --turns 0 = OutOfRange
run --machines 3 --lose 5:1,9:1 --turns 0 = OutOfRange
run --lose 5:0 --turns 0 = OutOfRange
demo --turns 0 = OutOfRange
run --lose x --number 18446744073709551616 = OutOfRange
run --turns 0 --number a = BadNumber
run --lose 5:1,x = BadScript
run --machines 3 --lose 5:1,9:1,x = BadScript
run --lose 5:0,x = BadScript
demo --lose x = BadScript
run --machines 3 --lose 5:1,9:1,7:3 = NoMachine
run --lose 5:0,6:1 = NoMachine
demo --lose 5:1 = NoMachine
run --lose 5:0,6:0 = TwiceLost
demo --machines 3 --lose 5:1,9:1 = TwiceLost
demo --lose 5:0 = AllLost
";

// The words of a row.
fn words_of(alloc: Global, row: &str) -> Result<Vec<String>, AllocError> {
    let mut words = Vec::new(alloc);
    for word in row.split_whitespace() {
        let word = if word == "~" { "" } else { word };
        words.push(String::from_str(alloc, word)?)?;
    }
    Ok(words)
}

// A plan as a row has it.
fn shown(alloc: Global, plan: &Plan) -> Result<String, AllocError> {
    let Plan {
        mode,
        machines,
        workers,
        turns,
        depth,
        window,
        near,
        number,
        ..
    } = plan;
    let place = if *near { "near" } else { "round" };
    let mut text = format!(in alloc;
        "{mode:?} {machines} {workers} {turns} {depth} {window} {place} {number}"
    )?;
    for loss in plan.losses.as_slice() {
        let entry = format!(in alloc; " {}:{}", loss.event, loss.machine)?;
        text.push_str(entry.as_str())?;
    }
    Ok(text)
}

// What the words of a row ask for.
fn answer(alloc: Global, row: &str) -> Result<String, AllocError> {
    let words = words_of(alloc, row)?;
    match read_words(alloc, words.as_slice()) {
        Ok(plan) => shown(alloc, &plan),
        Err(WordsStop::Fault(fault)) => format!(in alloc; "{fault:?}"),
        Err(WordsStop::NoMemory) => format!(in alloc; "NoMemory"),
    }
}

#[test]
fn words_have_their_answers(rt: HostRuntime) -> Result<(), Fail> {
    for row in ANSWERS.lines() {
        let Some((words, want)) = row.split_once(" = ") else {
            return Err(Fail::new(row));
        };
        assert_eq!(rt; answer(rt.alloc(), words)?.as_str(), want, "{words}");
    }
    Ok(())
}
