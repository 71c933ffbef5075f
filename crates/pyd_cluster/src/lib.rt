//! The cluster: a run over machines that are lost, its sink and its placer.
#![tactic(auto)]

mod boarding;
mod cluster;
mod keeper;
mod known;

pub use cluster::{Cluster, Parts, Pieces};
pub use known::Known;
