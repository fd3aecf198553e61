//! Tests of the receiver on the worked bursts and at the edges of its rules.
#![tactic(auto)]

#[cfg(test)]
mod edges;
#[cfg(test)]
mod table_tests;
#[cfg(test)]
mod worked;
