//! Whole runs of calls on receivers.
#![tactic(auto)]

mod call;
mod hear;
mod law;
mod obey;
mod run;

pub use call::{Answer, Call, Heard};
pub use law::{Compared, compare};
