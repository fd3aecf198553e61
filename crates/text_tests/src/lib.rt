//! Tests of numbers, lines, the kind of a text, and what is printed and written.
#![tactic(auto)]

#[cfg(test)]
mod kind_tests;
#[cfg(test)]
mod line_tests;
#[cfg(test)]
mod print_tests;
