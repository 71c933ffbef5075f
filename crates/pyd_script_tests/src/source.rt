//! Sources and sinks that fail at each call in turn.
ghost use Rattle.std.specs.Prelude.{◌≡◌, ◌-◌, ◌^◌, Contains, IfOk, IsOk, IsErrOf, None, false};

use crate::callers::put_line;
use pyd_source::*;
use std::alloc::{AllocError, Global};
use std::io;
use std::io::{Error, ErrorKind, Read};
use std::test::Fail;

const TEXT: &[u8] = b"print";

// The most bytes of a call, how many calls read the text and its end, and how many write it.
const PACES: [(usize, u32, u32); 3] = [(1, 6, 5), (2, 4, 3), (100, 2, 1)];

fn fails_at(alloc: Global, call: u32) -> Result<Vec<u64>, AllocError>
    ensures { IfOk result (λ fails. ¬ Contains fails.items (2 ^ 64 - 1)) }
{
    Vec::from_slice(alloc, &[u64::from(call)])
}

#[test]
fn a_source_is_read_within_its_limit(rt: HostRuntime) -> Result<(), Fail> {
    let alloc = rt.alloc();
    for (step, room) in [(1, 0), (2, 1), (100, 100), (1, usize::MAX - 5)] {
        assert!(rt; step > 0);
        let mut source = MemSource::new(TEXT.to_vec(alloc)?, Vec::new(alloc), step);
        let bytes = read_all(alloc, &mut source, room.saturating_add(5))?;
        assert_eq!(rt; bytes.as_slice(), TEXT, "step {step}");
        assert_eq!(rt; read_all(alloc, &mut source, 0)?.len(), 0, "step {step}");
    }
    Ok(())
}

#[test]
fn a_longer_source_is_too_long(rt: HostRuntime) -> Result<(), Fail> {
    let alloc = rt.alloc();
    for (size, limit, read) in [
        (1, 0, false),
        (1048576, 1048576, true),
        (1048577, 1048576, false),
    ] {
        let bytes = vec![in alloc; 32; size]?;
        let mut source = MemSource::new(bytes, Vec::new(alloc), usize::MAX);
        match read_all(alloc, &mut source, limit) {
            Ok(bytes) => assert!(rt; read && bytes.len() == size, "size {size}"),
            Err(stop) => assert!(rt; !read && stop == ReadStop::TooLong, "size {size}"),
        }
    }
    Ok(())
}

#[test]
fn a_read_stops_at_the_call_that_fails_and_goes_on_from_there(rt: HostRuntime) -> Result<(), Fail> {
    let alloc = rt.alloc();
    for (step, calls, _) in PACES {
        assert!(rt; step > 0);
        for call in 0..calls {
            let mut source = MemSource::new(TEXT.to_vec(alloc)?, fails_at(alloc, call)?, step);
            let stopped = read_all(alloc, &mut source, 5);
            assert!(rt;
                matches!(stopped, Err(ReadStop::ReadFault)),
                "step {step}, call {call}"
            );
            let rest = read_all(alloc, &mut source, 5)?;
            let taken = step.saturating_mul(call as usize).min(5);
            assert_eq!(rt; rest.as_slice(), &TEXT[taken..], "step {step}, call {call}");
        }
        let mut source = MemSource::new(TEXT.to_vec(alloc)?, fails_at(alloc, calls)?, step);
        assert_eq!(rt;
            read_all(alloc, &mut source, 5)?.as_slice(),
            TEXT,
            "step {step}"
        );
    }
    Ok(())
}

#[test]
fn a_write_stops_at_the_call_that_fails(rt: HostRuntime) -> Result<(), Fail> {
    let alloc = rt.alloc();
    for (step, _, calls) in PACES {
        assert!(rt; step > 0);
        for call in 0..calls {
            let mut sink = MemSink::new(alloc, 5, fails_at(alloc, call)?, step)?;
            let gone = step.saturating_mul(call as usize).min(5);
            assert_eq!(rt;
                put_all(&mut sink, TEXT),
                Err(Short { gone }),
                "step {step}, call {call}"
            );
            assert_eq!(rt; sink.held(), &TEXT[..gone], "step {step}, call {call}");
        }
        let mut sink = MemSink::new(alloc, 5, fails_at(alloc, calls)?, step)?;
        assert_eq!(rt; put_all(&mut sink, TEXT), Ok(()), "step {step}");
        assert_eq!(rt; sink.held(), TEXT, "step {step}");
    }
    Ok(())
}

#[test]
fn a_sink_takes_what_its_room_allows(rt: HostRuntime) -> Result<(), Fail> {
    let alloc = rt.alloc();
    for (room, held) in [(0, 0), (4, 0), (5, 5), (9, 5), (10, 10)] {
        let mut sink = MemSink::new(alloc, room, Vec::new(alloc), 2)?;
        let first = put_all(&mut sink, TEXT);
        let second = put_all(&mut sink, TEXT);
        assert_eq!(rt; first.is_ok(), held >= 5, "room {room}");
        assert_eq!(rt; second.is_ok(), held >= 10, "room {room}");
        assert_eq!(rt; sink.held(), &b"printprint"[..held], "room {room}");
    }
    Ok(())
}

// A source at its end and a sink that drops all, whose counts never move.
#[derive(Drop)]
struct Still;

impl Source for Still {
    ghost left = { λ _. None };

    ghost faults = { λ _. 0 };

    fn take(&mut self, _: &mut [u8]) -> Result<usize, Failed> {
        Ok(0)
    }
}

impl Sink for Still {
    ghost held = { λ _. None };

    ghost room = { λ _. None };

    ghost sure = { λ _. false };

    ghost faults = { λ _. 0 };

    fn put(&mut self, piece: &[u8]) -> Result<usize, Failed> {
        Ok(piece.len())
    }
}

// No fault comes from a sure sink or where a count doesn't move, as the clauses alone say.
fn put_to_nowhere(bytes: &[u8]) -> Result<(), Short>
    ensures { IsOk result }
{
    put_all(&mut NullSink::new(), bytes)
}

fn put_still(bytes: &[u8]) -> Result<(), Short>
    ensures { IsOk result }
{
    put_all(&mut Still, bytes)
}

fn read_still(alloc: Global) -> Result<Vec<u8>, ReadStop>
    ensures { IsErrOf result ReadStop.ReadFault → ⊥ }
{
    read_all(alloc, &mut Still, 5)
}

#[test]
fn a_line_is_put_up_to_the_call_that_fails(rt: HostRuntime) -> Result<(), Fail> {
    let alloc = rt.alloc();
    for (call, held) in [(0, ""), (1, "print"), (2, "print\n")] {
        let mut sink = MemSink::new(alloc, 6, fails_at(alloc, call)?, 100)?;
        assert_eq!(rt; put_line(&mut sink, TEXT).is_ok(), call == 2, "call {call}");
        assert_eq!(rt; sink.held(), held.as_bytes(), "call {call}");
    }
    Ok(())
}

// A reader that fails.
#[derive(Drop)]
struct Broken;

impl Read for Broken {
    fn read(&mut self, _: &mut [u8]) -> io::Result<usize> {
        Err(Error::from(ErrorKind::Other))
    }
}

#[test]
fn the_adapters_pass_bytes_and_errors_on(rt: HostRuntime) -> Result<(), Fail> {
    let alloc = rt.alloc();
    let mut source = StdSource::new(TEXT);
    assert_eq!(rt; read_all(alloc, &mut source, 5)?.as_slice(), TEXT);
    let stopped = read_all(alloc, &mut StdSource::new(Broken), 5);
    assert!(rt; matches!(stopped, Err(ReadStop::ReadFault)));

    assert_eq!(rt; put_all(&mut StdSink::new(Vec::new(alloc)), TEXT), Ok(()));
    let mut place = [0; 3];
    assert_eq!(rt;
        put_all(&mut StdSink::new(&mut place[..]), TEXT),
        Err(Short { gone: 3 })
    );
    assert_eq!(rt; place.as_slice(), &TEXT[..3]);
    Ok(())
}

#[test]
fn an_object_without_faults_gives_none(rt: HostRuntime) -> Result<(), Fail> {
    assert_eq!(rt; put_to_nowhere(TEXT), Ok(()));
    assert_eq!(rt; NullSink::new().put(TEXT), Ok(5));
    assert_eq!(rt; put_still(TEXT), Ok(()));
    assert_eq!(rt; read_still(rt.alloc())?.len(), 0);
    Ok(())
}
