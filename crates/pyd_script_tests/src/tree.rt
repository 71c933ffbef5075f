//! The nesting of small expressions, counted by hand.

use crate::reading::file_of;
use pyd_tree::{File, Item, Stmt, What, nesting};
use std::test::Fail;

/// Expressions, each with how deep its parts stand in it.
const NESTINGS: [(&str, u32); 8] = [
    ("x", 0),
    ("-x", 1),
    ("--x", 2),
    ("---x", 3),
    ("x[:x]", 1),
    ("x[:-x]", 2),
    ("x[:--x]", 3),
    ("x[:---x]", 4),
];

// The nesting of the expression that a file begins with.
fn first_nesting(file: &File) -> Option<u32> {
    match file.items.get(0) {
        Some(
            Item::Stmt(
                Stmt {
                    what: What::Expr(expr),
                    ..
                },
            ),
        ) => Some(nesting(expr)),
        _ => None,
    }
}

#[test]
fn each_part_nests_one_more(rt: HostRuntime) -> Result<(), Fail> {
    for (source, want) in NESTINGS {
        let file = file_of(rt.alloc(), source).ok_or("no file")?;
        assert_eq!(rt; first_nesting(&file), Some(want), "{source}");
    }
    Ok(())
}
