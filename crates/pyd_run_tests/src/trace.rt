//! Traces written and read, by rows.

use pyd_board::{Act, Event};
use pyd_trace::*;
use pyd_value::NoMemory;
use std::alloc::{AllocError, Global};
use std::test::Fail;

/// The trace of a script that prints the sum of two numbers, on one machine.
const SUM: &[u8] =
    b"pydron-trace 1\n1 0 Place 0 1 0\n1 1 Claim 0 1 0\n1 2 Finish 0 1 0\n1 3 Settle 0\n1 4 Settle 1\n";

/// Every act, its numbers at the ends of their types.
const ENDS: &[u8] = b"pydron-trace 1
0 0 Place 0 0 0
4294967295 18446744073709551615 Place 18446744073709551615 18446744073709551615 4294967295
1 10 Claim 18446744073709551615 1 0
2 100 Finish 1 18446744073709551615 0
3 101 Drop 1 2 4294967295
10 9 Refine 18446744073709551615
11 0 Settle 18446744073709551615
12 0 Lose 4294967295
13 0 Trim 18446744073709551615
14 0 Trim 0
";

/// What bytes are read as: `V` another version, `=N` a trace of N events, else the line at fault.
/// In the bytes `#` is the header, `;` a newline, `^` a carriage return, `@` a NUL, `%` a byte 255.
const READINGS: &str = "\
V 
V pydron-trace 1
V pydron-trace 2;
V pydron-trace 01;
V pydron-trace 1^;
V pydron-trace  1;
V pydron-trace 1 ;
V  pydron-trace 1;
V ;#
V %#
=0 #
=1 #1 0 Settle 0;
=1 #0 0 Lose 4294967295;
=2 #1 0 Settle 0;1 1 Trim 0;
=2 #7 7 Drop 1 2 3;7 7 Drop 1 2 3;
2 ##
2 #;
2 # ;
2 #%
2 #@
2 #1 0 Settle 0
2 #1 0 Settle 0^;
2 #1 0 Settle 0^
2 #1 0 Settle  0;
2 #1  0 Settle 0;
2 # 1 0 Settle 0;
2 #1 0 Settle 0 ;
2 #1 0 Settle 0@;
2 #1 0 Settle@0;
2 #1 0 Settle 0%;
2 #1 0 Settle %;
2 #1 0 Settel 0;
2 #1 0 settle 0;
2 #1 0 Settled 0;
2 #1 0 Sett 0;
2 #1 0 X 0;
2 #1 0 Settle;
2 #1 0 Settle ;
2 #1 0 Settle 0 1;
2 #1 0 Settle 0 1 2;
2 #1 0 Place 0 1;
2 #1 0 Place 0 1 ;
2 #1 0 Place 0 1 0 1;
2 #1 0 ;
2 #1 0;
2 #1;
2 #1 Settle 0;
2 #Settle 0;
2 #1 0 0 Settle 0;
2 #1 0 Settle 00;
2 #1 0 Settle 01;
2 #01 0 Settle 1;
2 #1 00 Settle 1;
2 #1 0 Settle +1;
2 #1 0 Settle -1;
2 #-1 0 Settle 1;
2 #1 0 Settle 1.0;
2 #1 0 Settle 1_0;
2 #1 0 Settle 0x1;
2 #4294967296 0 Settle 0;
2 #0 18446744073709551616 Settle 0;
2 #0 0 Settle 18446744073709551616;
2 #0 0 Refine 18446744073709551616;
2 #0 0 Trim 18446744073709551616;
2 #0 0 Lose 4294967296;
2 #0 0 Place 18446744073709551616 1 0;
2 #0 0 Claim 0 18446744073709551616 0;
2 #0 0 Finish 0 1 4294967296;
2 #0 0 Drop 0 1 18446744073709551616;
3 #1 0 Settle 0;;
3 #1 0 Settle 0;1 1 Settle 1
3 #1 0 Settle 0;1 1 Settel 1;1 2 Settel 2;
3 #1 0 Settle 0;#
4 #1 0 Settle 0;1 1 Settle 1; 
4 #1 0 Settle 0;1 1 Settle 1;^;
";

fn event(by: u32, nth: u64, act: Act) -> Event {
    Event { by, nth, act }
}

fn sum_events() -> [Event; 5] {
    [
        event(1, 0, Act::Place(0, 1, 0)),
        event(1, 1, Act::Claim(0, 1, 0)),
        event(1, 2, Act::Finish(0, 1, 0)),
        event(1, 3, Act::Settle(0)),
        event(1, 4, Act::Settle(1)),
    ]
}

fn end_events() -> [Event; 10] {
    let most = 18446744073709551615;
    [
        event(0, 0, Act::Place(0, 0, 0)),
        event(4294967295, most, Act::Place(most, most, 4294967295)),
        event(1, 10, Act::Claim(most, 1, 0)),
        event(2, 100, Act::Finish(1, most, 0)),
        event(3, 101, Act::Drop(1, 2, 4294967295)),
        event(10, 9, Act::Refine(most)),
        event(11, 0, Act::Settle(most)),
        event(12, 0, Act::Lose(4294967295)),
        event(13, 0, Act::Trim(most)),
        event(14, 0, Act::Trim(0)),
    ]
}

// Events of every act, with numbers of many lengths.
fn many_events(alloc: Global, count: u32) -> Result<Vec<Event>, NoMemory> {
    let mut events = Vec::new(alloc);
    for number in 0..count {
        let node = u64::from(number) * u64::from(number);
        let act = match number % 8 {
            0 => Act::Place(node, 1, number % 16),
            1 => Act::Claim(node, 2, number % 16),
            2 => Act::Finish(node, 3, number % 16),
            3 => Act::Drop(node, 4, number % 16),
            4 => Act::Refine(node),
            5 => Act::Settle(node),
            6 => Act::Lose(number),
            _ => Act::Trim(node),
        };
        events.push(event(number % 7, node, act))?;
    }
    Ok(events)
}

fn read(alloc: Global, bytes: &[u8]) -> Result<Vec<Event>, TraceStop> {
    match u32::try_from(bytes.len()) {
        Ok(_) => read_trace(alloc, bytes),
        Err(_) => Err(TraceStop::NoMemory),
    }
}

// The bytes of a row of `READINGS`.
fn bytes_of(alloc: Global, row: &str) -> Result<Vec<u8>, AllocError> {
    let mut bytes = Vec::new(alloc);
    for byte in row.bytes() {
        match byte {
            b'#' => bytes.extend_from_slice(b"pydron-trace 1\n")?,
            b';' => bytes.extend_from_slice(b"\n")?,
            b'^' => bytes.extend_from_slice(b"\r")?,
            b'@' => bytes.extend_from_slice(b"\0")?,
            b'%' => bytes.extend_from_slice(b"\xff")?,
            _ => bytes.extend_from_slice(&[byte])?,
        }
    }
    Ok(bytes)
}

// The answer of a row of `READINGS`.
fn shown(alloc: Global, bytes: &[u8]) -> Result<String, AllocError> {
    match read(alloc, bytes) {
        Ok(events) => format!(in alloc; "={}", events.len()),
        Err(TraceStop::BadVersion) => format!(in alloc; "V"),
        Err(TraceStop::BadLine(line)) => format!(in alloc; "{line}"),
        Err(TraceStop::NoMemory) => format!(in alloc; "no memory"),
    }
}

// Whether the events are written as the text, and the text is read as the events.
fn are_one(alloc: Global, events: &[Event], text: &[u8]) -> Result<(bool, bool), Fail> {
    let written = trace_text(alloc, events)?;
    let again = read(alloc, text)?;
    Ok((written.as_slice() == text, again.as_slice() == events))
}

#[test]
fn events_have_their_text(rt: HostRuntime) -> Result<(), Fail> {
    assert_eq!(rt;
        are_one(rt.alloc(), &[], b"pydron-trace 1\n")?,
        (true, true)
    );
    assert_eq!(rt; are_one(rt.alloc(), &sum_events(), SUM)?, (true, true));
    assert_eq!(rt; are_one(rt.alloc(), &end_events(), ENDS)?, (true, true));
    Ok(())
}

#[test]
fn bytes_are_read_as_the_rows_say(rt: HostRuntime) -> Result<(), Fail> {
    for row in READINGS.lines() {
        let Some((answer, text)) = row.split_once(' ') else {
            return Err(Fail::new(row));
        };
        let bytes = bytes_of(rt.alloc(), text)?;
        assert_eq!(rt; shown(rt.alloc(), &bytes)?.as_str(), answer, "{text}");
    }
    Ok(())
}

#[test]
fn many_events_are_written_and_read(rt: HostRuntime) -> Result<(), Fail> {
    let events = many_events(rt.alloc(), 100_000)?;
    let text = trace_text(rt.alloc(), &events)?;
    assert_eq!(rt; are_one(rt.alloc(), &events, &text)?, (true, true));
    Ok(())
}
