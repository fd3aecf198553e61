//! Tests of the sweep and of pinning at the edges of their rules, and a joining whose follow is not commutative.
#![tactic(auto)]

mod firsts;
#[cfg(test)]
mod pin_tests;
#[cfg(test)]
mod sweep_tests;

pub use firsts::Firsts;
