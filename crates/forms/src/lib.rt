//! The lines of a burst text: which forms there are, and how a line is read as one.
#![tactic(auto)]

mod fault;
mod head;
mod held;
mod line;
mod list;
mod number;
mod piece;
mod pieces;
mod prior;
mod read;
mod word;

pub use fault::NotAForm;
pub use line::{CodeLine, Line, PlaceLine, TableLine, TapsLine};
pub use prior::Prior;
pub use read::read_line;
