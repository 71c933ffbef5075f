//! Tests of refining: the pieces of composites, and random scripts refined and settled to their end.
#![tactic(auto)]

#[cfg(test)]
mod pieces;
#[cfg(test)]
mod reading;
#[cfg(test)]
mod replacing;
#[cfg(test)]
mod scripts;
