//! The receiver: a burst's places with their columns, worked as far as they are asked for, and read.
#![tactic(auto)]

mod alter;
mod change;
mod inner;
mod read;
mod receiver;
mod settle;

pub use inner::{MOST, Marks};
pub use receiver::Receiver;
pub use settle::Settled;
