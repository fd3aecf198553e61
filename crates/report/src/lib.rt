//! What is printed of a burst.
#![tactic(auto)]

mod burst;
mod read;
mod spaced;

pub use burst::{Best, Burst};
pub use read::{Costs, Leans, Read};
