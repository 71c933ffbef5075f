//! A run on one thread, by a list of choices.
#![tactic(auto)]

mod acting;
mod claiming;
mod finishing;
mod jobs;
mod losing;
mod making;
mod seats;
mod settling;
