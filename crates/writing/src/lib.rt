//! Writing the lines of a burst text.
#![tactic(auto)]

mod code_line;
mod draft;
mod inscribed;
mod line;
mod pieces;
mod places;
mod put;
mod short;
mod table_line;
mod taps_line;
mod whole;

pub use inscribed::Inscribed;
pub use line::write_line;
pub use places::{DepthLine, PlaceLine};
pub use short::TooShort;
pub use whole::write_text;
