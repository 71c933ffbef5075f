//! Tests of the grammar: derivations, what is measured of them, and the files that tokens are read as.
#![tactic(auto)]

#[cfg(test)]
mod derivation;
#[cfg(test)]
mod grammar;
#[cfg(test)]
mod measure;
#[cfg(test)]
mod reading;
#[cfg(test)]
mod syntax;
