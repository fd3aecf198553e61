//! Tests that a receiver's costs at full depth are the least totals that a sweep finds.
#![tactic(auto)]

#[cfg(test)]
mod least_tests;
