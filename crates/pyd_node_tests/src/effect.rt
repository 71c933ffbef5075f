//! Heads of each kind, and what is settled of them.
ghost use Rattle.std.specs.Prelude.{◌≡◌, false};
ghost use Rattle.pyd_ir.specs.Arguments.{is_composite};

mod reading;

use pyd_effect::{Settled, settle_head};
use pyd_ir::Node;
use pyd_value::{List, NoMemory, Value};
use reading::{head, inputs, ran, repeated, settled};
use std::alloc::Global;
use std::test::Fail;

/// The kind of the head, the values of its arguments (`-` marks an absent one), what its own job gave,
/// and what is settled, each with the lines behind a bar.
const ROWS: [[&str; 4]; 24] = [
    ["op", "1 2", "none", "waits"],
    ["op", "1 2", "value", "passed"],
    ["op", "1 2", "value|a", "passed"],
    ["op", "- 2", "value", "passed"],
    ["op", "1 2", "fault", "raised"],
    ["op", "1 2", "fault|a", "raised"],
    ["read", "-", "none", "waits"],
    ["read", "-", "fault", "raised"],
    ["read", "1", "value", "passed"],
    ["call", "1", "none", "waits"],
    ["call", "1", "value|a|b", "passed"],
    ["call", "1", "limit|a", "limited"],
    ["stop", "", "none", "raised"],
    ["stop", "", "value|a", "raised"],
    ["print", "", "none", "passed|"],
    ["print", "1 'a", "none", "passed|1 a"],
    ["print", "1 'a", "fault|b", "passed|1 a"],
    ["print", "1 -", "none", "waits"],
    ["print", "- 1", "value", "waits"],
    ["run", "1", "none", "waits"],
    ["run", "-", "none", "waits"],
    ["run", "1", "value|a|b", "passed|a|b"],
    ["run", "1", "fault|a|b", "raised|a|b"],
    ["run", "1", "limit", "limited"],
];

fn answers(alloc: Global, row: &[&str; 4]) -> Result<bool, NoMemory> {
    let node = head(alloc, row[0])?;
    let answer = is_row(alloc, &node, row);
    drop(node);
    answer
}

fn is_row(alloc: Global, node: &Node, row: &[&str; 4]) -> Result<bool, NoMemory>
    requires { is_composite node.now.work ≡ false }
{
    let values = inputs(alloc, row[1])?;
    let own = ran(alloc, row[2])?;
    let given = settle_head(alloc, node, values.as_slice(), own.as_ref());
    drop(own);
    is_settled(alloc, given?, row[3])
}

fn is_settled(alloc: Global, given: Settled, wanted: &str) -> Result<bool, NoMemory> {
    let wanted = settled(alloc, wanted);
    let answer = match &wanted {
        Ok(wanted) => Ok(given == *wanted),
        Err(NoMemory) => Err(NoMemory),
    };
    drop(wanted);
    drop(given);
    answer
}

#[test]
fn each_kind_of_head_is_settled(rt: HostRuntime) -> Result<(), Fail> {
    for row in &ROWS {
        assert!(rt;
            answers(rt.alloc(), row)?,
            "{}; {}; {}",
            row[0],
            row[1],
            row[2]
        );
    }
    Ok(())
}

/// So many texts of so many characters, with spaces between them, are too long for a line.
const COUNT: usize = 1025;

const DIGITS: &str = "10000000000";

fn is_too_long(alloc: Global, node: &Node) -> Result<bool, NoMemory>
    requires { is_composite node.now.work ≡ false }
{
    let text = repeated(alloc, DIGITS)?;
    let mut values = List::new(alloc);
    for _ in 0..COUNT {
        values.add(Some(Value::Text(text.try_clone()?)))?;
    }
    let given = settle_head(alloc, node, values.as_slice(), None)?;
    is_settled(alloc, given, "size")
}

#[test]
fn a_line_that_is_too_long_ends_the_run(rt: HostRuntime) -> Result<(), Fail> {
    let node = head(rt.alloc(), "print")?;
    let answer = is_too_long(rt.alloc(), &node);
    drop(node);
    assert!(rt; answer?);
    Ok(())
}
