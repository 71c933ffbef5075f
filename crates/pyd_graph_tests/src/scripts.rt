//! Scripts and their graphs.

mod rows;

use crate::reading::program_of;
use pyd_graph::graph_text;
use std::alloc::Global;
use std::test::Fail;

// The graph of a script; none where it is refused or memory ends.
fn graph(alloc: Global, source: &str) -> Option<Vec<u8>> {
    let program = program_of(alloc, source)?;
    graph_text(alloc, &program).ok()
}

#[test]
fn scripts_have_these_graphs(rt: HostRuntime) -> Result<(), Fail> {
    let mut number = 0usize;
    for row in rows::ROWS.split('\u{a7}') {
        if let Some((head, wanted)) = row.split_once("---\n") {
            let (title, source) = head.split_once('\n').ok_or("a title")?;
            let text = graph(rt.alloc(), source).ok_or("a graph")?;
            let text = String::from_utf8(text).ok().ok_or("a text")?;
            assert_eq!(rt; text.as_str(), wanted, "{number} {title}");
            number = number.saturating_add(1);
        }
    }
    assert_eq!(rt; number, rows::COUNT);
    Ok(())
}
