//! The numbers of a burst text, read and written in decimal.
#![tactic(auto)]

mod read;
mod write;

pub use read::{NotANumber, number};
pub use write::Numeral;
