//! Tests of the table and the code kinds at the edges of their rules.
#![tactic(auto)]

#[cfg(test)]
mod code_tests;
#[cfg(test)]
mod table_tests;
