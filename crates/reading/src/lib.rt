//! Reading a whole burst text into a receiver.
#![tactic(auto)]

mod add;
mod both;
mod first;
mod heads;
mod place;
mod places;
mod second;
mod whole;

pub use whole::read_text;
