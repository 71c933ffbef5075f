//! Lists of nodes, which of them are needed, which may be dropped, and which is awaited.

mod ordering;
mod reading;

use crate::{first_awaited, needed, trim};
use ordering::in_order;
use pyd_ir::{Chain, Past};
use pyd_value::NoMemory;
use reading::{nodes, numbers};
use std::alloc::Global;
use std::test::Fail;

/// The past, the chain, the numbers that are known, those that are needed, and those to be dropped.
const ROWS: [[&str; 5]; 13] = [
    ["", "0:op 1:op:0 2:print:1", "1", "0", ""],
    ["0:op 1:op:0", "2:print:1", "1", "", ""],
    ["0:op 1:op:0", "2:print:1", "", "0 1", ""],
    ["0:op 1:op:0", "2:print", "", "", "0 1"],
    ["0:op 1:op:0 2:op:1", "3:print:2", "1", "2", ""],
    ["0:op 1:op", "2:op:0 3:print:2", "2", "", "1"],
    ["8:op 3:op:8", "5:print:3", "", "8 3", ""],
    ["0:op 1:op 2:op", "3:cond:0,1", "", "0 1", "2"],
    ["0:op 1:op 2:op", "3:while:0,1", "", "0 1", "2"],
    ["0:op 1:op 2:op", "3:for:0,1", "", "0 1", "2"],
    ["0:op 1:op 2:op", "3:pick:0,2", "", "0 2", "1"],
    ["", "0:stop 1:read:0 2:call:1 3:enter:2", "", "0 1 2", ""],
    ["0:op", "4:run:0,2 5:print:4", "", "0", ""],
];

fn answers(alloc: Global, row: &[&str; 5]) -> Result<bool, NoMemory> {
    let [past, chain, known, wanted, unreached] = *row;
    let past = Past {
        nodes: nodes(alloc, past)?,
    };
    let chain = Chain {
        nodes: nodes(alloc, chain)?,
    };
    if !in_order(alloc, &past, &chain)? {
        return Ok(false);
    }
    let known = numbers(alloc, known)?;
    let found = needed(alloc, &past, &chain, known.as_slice())?;
    let dropped = trim(alloc, &past, &chain)?;
    Ok(found == numbers(alloc, wanted)? && dropped == numbers(alloc, unreached)?)
}

#[test]
fn what_the_chain_reaches_is_needed_or_kept(rt: HostRuntime) -> Result<(), Fail> {
    for row in &ROWS {
        assert!(rt;
            answers(rt.alloc(), row)?,
            "{}; {}; {}",
            row[0],
            row[1],
            row[2]
        );
    }
    Ok(())
}

/// The past, the numbers that are wanted, those that are known, and the place of the first that is awaited.
const AWAITED: [([&str; 3], Option<usize>); 7] = [
    (["0:op 1:op:0", "1", ""], Some(0)),
    (["0:op 1:op:0", "1", "0"], Some(1)),
    (["0:op 1:op:0", "1", "1"], None),
    (["0:op 1:op 2:op:1", "2", ""], Some(1)),
    (["0:op 1:op:0 2:op:1", "2", "1"], Some(2)),
    (["8:op 3:op:8", "3", ""], Some(0)),
    (["0:op", "", ""], None),
];

fn is_found(alloc: Global, row: &[&str; 3], place: Option<usize>) -> Result<bool, NoMemory> {
    let [past, wanted, known] = *row;
    let past = nodes(alloc, past)?;
    let wanted = numbers(alloc, wanted)?;
    let known = numbers(alloc, known)?;
    Ok(first_awaited(alloc, past.as_slice(), wanted.as_slice(), known.as_slice())? == place)
}

#[test]
fn the_first_past_node_that_is_wanted_is_awaited(rt: HostRuntime) -> Result<(), Fail> {
    for (row, place) in &AWAITED {
        assert!(rt;
            is_found(rt.alloc(), row, *place)?,
            "{}; {}; {}",
            row[0],
            row[1],
            row[2]
        );
    }
    Ok(())
}
