//! Tests of what threads share: the lock, and the pool of tickets.
#![tactic(auto)]

#[cfg(test)]
mod pool;
#[cfg(test)]
mod turn;
