//! Random scripts, refined and settled in head order until they end.

mod making;
mod running;

use crate::reading::program_of;
use making::script_of;
use pyd_eval::{Whole, module};
use pyd_meaning::Limits;
use pyd_value::End;
use running::run_nodes;
use std::test::Fail;

/// How many scripts there are.
const SCRIPTS: u64 = 1_000;

const LIMITS: Limits = Limits { turns: 5, depth: 4 };

/// How many scripts ended in each way.
#[derive(Drop)]
struct Ends {
    finished: u64,
    raised: u64,
    limited: u64,
}

impl Ends {
    fn count(&mut self, whole: &Whole) {
        let ends = match &whole.end {
            End::Finished => &mut self.finished,
            End::Raised(_, _) => &mut self.raised,
            End::Limit(_, _) => &mut self.limited,
        };
        *ends = ends.saturating_add(1);
    }
}

#[test]
fn refined_scripts_print_and_end_as_evaluated_ones(rt: HostRuntime) -> Result<(), Fail> {
    let alloc = rt.alloc();
    let mut ends = Ends {
        finished: 0,
        raised: 0,
        limited: 0,
    };
    for seed in 0..SCRIPTS {
        let source = script_of(alloc, seed)?;
        let program = program_of(alloc, source.as_str()).ok_or("a program")?;
        let wanted = module(alloc, &program, LIMITS)?;
        let whole = run_nodes(alloc, &program, LIMITS)?;
        assert_eq!(rt; whole, wanted, "{seed}\n{source}");
        ends.count(&wanted);
    }
    assert!(rt; ends.finished > 100, "{} finished", ends.finished);
    assert!(rt; ends.raised > 100, "{} raised", ends.raised);
    assert!(rt; ends.limited > 100, "{} limited", ends.limited);
    Ok(())
}
