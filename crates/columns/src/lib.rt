//! The columns of a receiver: the sizes of its trellis, and how one column is worked from its neighbour.
#![tactic(auto)]

mod backward;
mod column;
mod ends;
mod forward;
mod indices;
mod section;
mod shape;
mod sizes;
mod start;
mod stored;
mod weigh;

pub use column::{Cell, Column, Survivor};
pub use section::Section;
pub use shape::Shape;
pub use stored::as_cost;
