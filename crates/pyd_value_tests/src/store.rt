//! Calls of a store compared with those of a dict of CPython.

mod calls;

use calls::{CALLS, NODES};
use pyd_store::Store;
use pyd_value::{Fault, Kind, NoMemory, Outcome, Value};
use std::str::FromStr;
use std::test::Fail;

fn put(store: &mut Store, node: u64, outcome: Outcome) -> Result<(), NoMemory> {
    match store.put(node, outcome) {
        Ok(()) => Ok(()),
        Err((outcome, NoMemory)) => {
            drop(outcome);
            Err(NoMemory)
        }
    }
}

// Whether the store has the outcome that is marked, `-` marking none.
fn has(store: &Store, node: u64, mark: &str) -> bool {
    match store.fetch(node) {
        Some(Outcome::Ok(Value::Int(n))) => mark.parse() == Ok(*n),
        Some(Outcome::Ok(_)) | Some(Outcome::Fault(_)) => false,
        None => mark == "-",
    }
}

#[test]
fn a_store_has_what_a_dict_has(rt: HostRuntime) -> Result<(), Fail> {
    let mut store = Store::new(rt.alloc());
    let mut compared = 0u32;
    for (line, call) in CALLS.lines().enumerate() {
        let mut words = call.split_whitespace();
        let verb = words.next();
        if verb == Some("has") {
            for (node, mark) in NODES.iter().zip(words) {
                assert!(rt; has(&store, *node, mark), "line {line}, node {node}");
                compared = compared.saturating_add(1);
            }
        } else if verb == Some("clear") {
            store.clear();
        } else if let Some(Ok(node)) = words.next().map(u64::from_str) {
            match words.next().map(i128::from_str) {
                Some(Ok(n)) => put(&mut store, node, Outcome::Ok(Value::Int(n)))?,
                Some(Err(_)) | None => store.remove(node),
            }
        }
    }
    assert_eq!(rt; compared, 240);
    Ok(())
}

#[test]
fn a_fault_is_an_outcome_too(rt: HostRuntime) -> Result<(), Fail> {
    let fault = Fault::Raised(Kind::TypeError, 3);
    let mut store = Store::new(rt.alloc());
    put(&mut store, 7, Outcome::Fault(fault))?;
    assert!(rt; matches!(store.fetch(7), Some(Outcome::Fault(kept)) if *kept == fault));
    assert!(rt; store.fetch(8).is_none());
    Ok(())
}
