//! Tests of costs and channels at the edges of their rules.
#![tactic(auto)]

#[cfg(test)]
mod cost_tests;
#[cfg(test)]
mod taps_tests;
