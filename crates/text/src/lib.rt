//! Burst text: its lines, what is wrong with one, and the kind of its channel.
#![tactic(auto)]

mod fault;
mod find;
mod head;
mod kind;
mod lines;
mod name;
mod show;

pub use fault::{Cause, Fault, Layer, Malformed};
pub use find::{MOST_BYTES, find_kind};
pub use head::read_head_line;
pub use kind::Kind;
pub use lines::{Lines, cut_line};
