//! What a run tells as a board: contracts of functions whose bodies only call the laws that they
//! stand on.
ghost use Rattle.pyd_core.specs.Facts.{EndLaw, LawfulLaw, NextLaw};

use pyd_runs::{
    bar_law, beginning_law, desk_law, journal_law, left_law, run_law, step_law, ticket_law,
};

/// Behind events that came each in its turn what is told goes with the events that may come.
pub fn lawful_law()
    ensures { LawfulLaw }
{
    bar_law();
    desk_law();
    journal_law();
    left_law();
    run_law();
    step_law();
    ticket_law();
}

/// Events may come each in its turn behind a legal run just where the whole run is legal.
pub fn next_law()
    ensures { NextLaw }
{
    beginning_law();
    step_law();
}

/// The end of a board of one run is there exactly where the run has ended.
pub fn end_law()
    ensures { EndLaw }
{}
