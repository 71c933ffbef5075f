//! The program over memory: scripts, their output, error lines and statuses.
ghost use Rattle.std.specs.Prelude.{◌≡◌, ◌≤◌, ◌-◌, ◌^◌, Contains, IfOk};

mod rows;
mod scripts;
mod streams;

use crate::reading::unfolded;
use pyd_eval::module;
use pyd_gen::make_source;
use pyd_meaning::Limits;
use pyd_source::{MemSink, MemSource, Source};
use pyd_top::{Status, check_source, pydron_here};
use pyd_value::{End, Limit};
use std::alloc::{AllocError, Global};
use std::str;
use std::test::Fail;
use streams::{FAILING, Failing, Stream};

const RUN: &[&str] = &["run"];

const CHECK: &[&str] = &["check"];

const GRAPH: &[&str] = &["graph"];

/// A source, and the graph that it begins with. For a line end stands ¶.
const GRAPHS: &str = "x = 1 + 2¶if x > 2:¶    print(x * 2)→0 1 Add 1 2¶1 2 Gt #0.0 2¶2 2 Cond #1.0¶
from pydron import schedule, functional¶¶@functional¶@schedule¶def f(a):¶    return a¶¶print(f(1))→0 8 Enter f 1¶1 8 Print #0.0¶
pass→";

const WORDS: &[&[&str]] = &[
    &[],
    &["fly"],
    &["check", "run"],
    &["graph", "run"],
    &["Run"],
    &["run", "x"],
    &["run", "run"],
    &["--help"],
];

/// How calls go: the most bytes that each moves, and the call of each object that fails.
#[derive(Clone, Copy)]
struct Course {
    step: usize,
    source: Option<u32>,
    out: Option<u32>,
    err: Option<u32>,
}

const SMOOTH: Course = Course {
    step: 1_000_000,
    source: None,
    out: None,
    err: None,
};

/// The status of a run, what stands on the two sinks, and how many bytes of the source are left.
#[derive(Drop)]
struct Ran {
    status: Status,
    output: Vec<u8>,
    error: Vec<u8>,
    left: usize,
}

fn texts(alloc: Global, words: &[&str]) -> Result<Vec<String>, AllocError> {
    let mut texts = Vec::new(alloc);
    for word in words {
        texts.push(String::from_str(alloc, word)?)?;
    }
    Ok(texts)
}

fn fails_at(alloc: Global, call: Option<u32>) -> Result<Vec<u64>, AllocError>
    ensures { IfOk result (λ fails. ¬ Contains fails.items (2 ^ 64 - 1)) }
{
    match call {
        Some(call) => Vec::from_slice(alloc, &[u64::from(call)]),
        None => Ok(Vec::new(alloc)),
    }
}

/// Runs these words over this source.
fn run_over(alloc: Global, words: &[&str], source: &[u8], course: Course) -> Result<Ran, Fail>
    requires { 1 ≤ course.step }
{
    let words = texts(alloc, words)?;
    let bytes = source.to_vec(alloc)?;
    let mut source = MemSource::new(bytes, fails_at(alloc, course.source)?, course.step);
    let out = MemSink::new(alloc, 1000, fails_at(alloc, course.out)?, course.step)?;
    let mut err = MemSink::new(alloc, 1000, fails_at(alloc, course.err)?, course.step)?;
    let ended = pydron_here(alloc, &words, &mut source, out, &mut err, &[]);
    Ok(Ran {
        status: ended.status,
        output: ended.out.held().to_vec(alloc)?,
        error: err.held().to_vec(alloc)?,
        left: source.take(&mut [0; 16]).unwrap_or(0),
    })
}

/// Whether a run ended with this status and these bytes on the two sinks.
fn gave(ran: &Ran, status: Status, output: &str, error: &str) -> bool {
    ran.status == status
        && ran.output.as_slice() == output.as_bytes()
        && ran.error.as_slice() == error.as_bytes()
}

/// Whether mode `check` gives this answer for a source: what is accepted, or why it is refused.
fn is_checked(alloc: Global, source: &str, answer: &str) -> Result<bool, Fail> {
    let source = unfolded(alloc, source)?;
    let ran = run_over(alloc, CHECK, source.as_bytes(), SMOOTH)?;
    if answer.starts_with("ok: ") {
        let output = format!(in alloc; "{answer}\n")?;
        return Ok(gave(&ran, Status::Done, output.as_str(), ""));
    }
    let error = format!(in alloc; "REFUSED {answer}\n")?;
    Ok(gave(&ran, Status::Refused, "", error.as_str()))
}

#[test]
fn sources_are_accepted_or_refused(rt: HostRuntime) -> Result<(), Fail> {
    for table in [rows::REFUSALS, rows::FAULTS, rows::NAMES, rows::PAIRS] {
        for row in table.lines() {
            let (source, answer) = row.split_once('\u{2192}').unwrap_or((row, ""));
            let right = is_checked(rt.alloc(), source, answer)?;
            assert!(rt; right, "{row}");
        }
    }
    Ok(())
}

/// The status that goes with an error line of a run.
fn status_of(error: &str) -> Status {
    if error.is_empty() {
        return Status::Done;
    }
    if error.starts_with("LIMIT") {
        return Status::Limit;
    }
    if error.starts_with("REFUSED") {
        Status::Refused
    } else {
        Status::Raised
    }
}

/// Whether mode `run` puts this output and this error line for a source, and reads it to its end.
fn is_run(alloc: Global, source: &str, output: &str, error: &str) -> Result<bool, Fail> {
    let source = unfolded(alloc, source)?;
    let output = unfolded(alloc, output)?;
    let error = unfolded(alloc, error)?;
    let ran = run_over(alloc, RUN, source.as_bytes(), SMOOTH)?;
    let status = status_of(error.as_str());
    Ok(ran.left == 0 && gave(&ran, status, output.as_str(), error.as_str()))
}

#[test]
fn scripts_are_run(rt: HostRuntime) -> Result<(), Fail> {
    for row in scripts::SCRIPTS.lines() {
        let (source, rest) = row.split_once('\u{2192}').unwrap_or((row, ""));
        let (output, error) = rest.split_once('\u{2192}').unwrap_or((rest, ""));
        let right = is_run(rt.alloc(), source, output, error)?;
        assert!(rt; right, "{row}");
    }
    Ok(())
}

/// Whether mode `graph` puts this graph for a source, and reads it to its end.
fn is_drawn(alloc: Global, source: &str, graph: &str) -> Result<bool, Fail> {
    let source = unfolded(alloc, source)?;
    let graph = unfolded(alloc, graph)?;
    let ran = run_over(alloc, GRAPH, source.as_bytes(), SMOOTH)?;
    Ok(ran.left == 0 && gave(&ran, Status::Done, graph.as_str(), ""))
}

#[test]
fn graphs_are_written(rt: HostRuntime) -> Result<(), Fail> {
    for row in GRAPHS.lines() {
        let (source, graph) = row.split_once('\u{2192}').unwrap_or((row, ""));
        let right = is_drawn(rt.alloc(), source, graph)?;
        assert!(rt; right, "{row}");
    }
    Ok(())
}

#[test]
fn a_source_that_is_refused_has_no_graph(rt: HostRuntime) -> Result<(), Fail> {
    let ran = run_over(rt.alloc(), GRAPH, b"x = len", SMOOTH)?;
    assert!(rt; gave(&ran, Status::Refused, "", "REFUSED FunctionValue: line 1\n"));
    Ok(())
}

#[test]
fn a_whole_script_is_checked_and_run(rt: HostRuntime) -> Result<(), Fail> {
    let alloc = rt.alloc();
    let checked = run_over(alloc, CHECK, scripts::PIXELS.as_bytes(), SMOOTH)?;
    assert!(rt; gave(&checked, Status::Done, "ok: 5 functions, 2 constants\n", ""));
    let ran = run_over(alloc, RUN, scripts::PIXELS.as_bytes(), SMOOTH)?;
    assert!(rt; gave(&ran, Status::Done, scripts::PIXELS_OUTPUT, ""));
    let Ok(program) = check_source(alloc, scripts::PIXELS.as_bytes()) else {
        return Err(Fail::new("a whole script"));
    };
    assert_eq!(rt; program.routines.len(), 6);
    assert_eq!(rt; program.constants.len(), 3);
    Ok(())
}

#[test]
fn bytes_that_are_no_text_are_refused(rt: HostRuntime) -> Result<(), Fail> {
    let ran = run_over(rt.alloc(), CHECK, b"x\xff", SMOOTH)?;
    assert!(rt; gave(&ran, Status::Refused, "", "REFUSED Utf8: byte 1\n"));
    Ok(())
}

/// Three turns serve the first loop; the second one wants a fourth.
#[test]
fn a_loop_may_make_all_its_turns(rt: HostRuntime) -> Result<(), Fail> {
    let alloc = rt.alloc();
    let source = unfolded(alloc, scripts::TURNS)?;
    let Ok(program) = check_source(alloc, source.as_bytes()) else {
        return Err(Fail::new("two loops"));
    };
    let limits = Limits {
        turns: 3,
        depth: 64,
    };
    let Ok(whole) = module(alloc, &program, limits) else {
        return Err(Fail::new("memory for two loops"));
    };
    assert_eq!(rt; whole.end, End::Limit(Limit::Turn, 3));
    let mut printed = String::new(alloc);
    for line in whole.lines.as_slice() {
        printed.push_str(line.as_str())?;
    }
    assert_eq!(rt; printed.as_str(), "012012");
    Ok(())
}

/// The generated text of a number is that of its remainder by 101.
#[test]
fn each_generated_source_is_accepted(rt: HostRuntime) -> Result<(), Fail> {
    for number in 0..101 {
        let source = make_source(rt.alloc(), number)?;
        let accepted = check_source(rt.alloc(), &source).is_ok();
        assert!(rt; accepted, "{number}");
    }
    Ok(())
}

/// Whether a check of a source ended well, or in a line of it.
fn is_within(ran: &Ran, lines: usize) -> bool {
    if ran.status == Status::Done {
        return true;
    }
    let Ok(error) = str::from_utf8(&ran.error) else {
        return false;
    };
    let (_, line) = error.trim_end().rsplit_once(' ').unwrap_or((error, ""));
    ran.status == Status::Refused
        && line
            .parse::<usize>()
            .is_ok_and(|line| 0 < line && line <= lines)
}

#[test]
fn each_beginning_of_a_script_is_answered(rt: HostRuntime) -> Result<(), Fail> {
    let source = scripts::PIXELS.as_bytes();
    let mut lines = 1usize;
    for (end, byte) in source.iter().enumerate() {
        let (front, _) = source.split_at(end);
        let ran = run_over(rt.alloc(), CHECK, front, SMOOTH)?;
        assert!(rt; is_within(&ran, lines), "the first {end} bytes");
        if *byte == b'\n' {
            lines = lines.saturating_add(1);
        }
    }
    Ok(())
}

#[test]
fn other_words_are_refused_and_nothing_is_read(rt: HostRuntime) -> Result<(), Fail> {
    for words in WORDS {
        let ran = run_over(rt.alloc(), words, b"print(1)", SMOOTH)?;
        assert!(rt; gave(&ran, Status::Words, "", "WORDS Line\n"));
        assert_eq!(rt; ran.left, 8);
    }
    Ok(())
}

#[test]
fn a_source_may_have_a_mebibyte(rt: HostRuntime) -> Result<(), Fail> {
    let mut source = b"print(1".to_vec(rt.alloc())?;
    for _ in 0..524_284 {
        source.extend_from_slice(b"+0")?;
    }
    source.push(b')')?;
    assert_eq!(rt; source.len(), 1_048_576);
    let whole = run_over(rt.alloc(), RUN, &source, SMOOTH)?;
    assert!(rt; gave(&whole, Status::Done, "1\n", ""));
    source.push(b'\n')?;
    let long = run_over(rt.alloc(), CHECK, &source, SMOOTH)?;
    assert!(rt; gave(&long, Status::Refused, "", "REFUSED TooLong\n"));
    Ok(())
}

/// Whether a run ended with a fault of a sink, and this many bytes of the texts are on the sinks.
fn broke_off(ran: &Ran, output: (&str, usize), error: (&str, usize)) -> bool {
    ran.status == Status::SinkFault
        && ran.output.len() == output.1
        && output.0.as_bytes().starts_with(&ran.output)
        && ran.error.len() == error.1
        && error.0.as_bytes().starts_with(&ran.error)
}

/// How many bytes were moved before this call, where there is one: each moves a step or the rest of
/// a piece.
fn moved(pieces: &[usize], step: usize, call: u32) -> Option<usize>
    requires { 1 ≤ step }
{
    let mut before = 0usize;
    let mut left = call as usize;
    for piece in pieces {
        let calls = (piece.saturating_sub(1) / step).saturating_add(1);
        if left < calls {
            return Some(before.saturating_add(left.saturating_mul(step)));
        }
        left -= calls;
        before = before.saturating_add(*piece);
    }
    None
}

/// A course in which this call of this stream fails.
fn course_of(stream: Stream, step: usize, call: u32) -> Course
    ensures { result.step ≡ step }
{
    let failing = Some(call);
    match stream {
        Stream::Source => Course {
            step,
            source: failing,
            ..SMOOTH
        },
        Stream::Out => Course {
            step,
            out: failing,
            ..SMOOTH
        },
        Stream::Err => Course {
            step,
            err: failing,
            ..SMOOTH
        },
    }
}

/// Whether a run with this call of its stream failing ends as it should, and as any other run where
/// it makes no such call.
fn is_broken_off(alloc: Global, row: &Failing, step: usize, call: u32) -> Result<bool, Fail>
    requires { 1 ≤ step }
{
    let source = unfolded(alloc, row.source)?;
    let course = course_of(row.stream, step, call);
    let ran = run_over(alloc, &[row.word], source.as_bytes(), course)?;
    let Some(gone) = moved(row.pieces, step, call) else {
        return Ok(gave(&ran, row.status, row.output, row.error));
    };
    Ok(match row.stream {
        Stream::Source => gave(&ran, Status::ReadFault, "", "FAULT read\n"),
        Stream::Out => broke_off(&ran, (row.output, gone), ("FAULT sink\n", 11)),
        Stream::Err => broke_off(&ran, (row.output, row.output.len()), (row.error, gone)),
    })
}

const STEPS: &[usize] = &[1, 2, 100];

/// No row makes more calls than this.
const CALLS: u32 = 40;

#[test]
fn streams_fail_at_each_call(rt: HostRuntime) -> Result<(), Fail> {
    for row in FAILING {
        for step in STEPS {
            assert!(rt; *step > 0);
            for call in 0..CALLS {
                let right = is_broken_off(rt.alloc(), row, *step, call)?;
                assert!(rt; right, "{}: step {step}, call {call}", row.source);
            }
        }
    }
    Ok(())
}

#[test]
fn a_sink_without_room_holds_a_prefix(rt: HostRuntime) -> Result<(), Fail> {
    let alloc = rt.alloc();
    let words = texts(alloc, RUN)?;
    let bytes = b"print(1 + 2)\nprint(44)\n".to_vec(alloc)?;
    let mut source = MemSource::new(bytes, Vec::new(alloc), 100);
    let out = MemSink::new(alloc, 4, Vec::new(alloc), 2)?;
    let mut err = MemSink::new(alloc, 100, Vec::new(alloc), 100)?;
    let ended = pydron_here(alloc, &words, &mut source, out, &mut err, &[]);
    assert_eq!(rt; ended.status, Status::SinkFault);
    assert!(rt; b"3\n44\n".starts_with(ended.out.held()));
    assert_eq!(rt; err.held(), b"FAULT sink\n".as_slice());
    Ok(())
}
