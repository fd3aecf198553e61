//! The places of a burst, each a sample and four priors, and why a call on places is refused.
#![tactic(auto)]

mod memory;
mod place;
mod priors;
mod refusal;

pub use memory::histories;
pub use place::Place;
pub use priors::Priors;
pub use refusal::Refusal;
