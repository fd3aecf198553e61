//! What a receiver keeps besides its channel.
use burst::Place;
use columns::{Column, Shape};

/// The greatest number of places.
pub const MOST: usize = 128;

/// Which columns are fresh: the forward columns up to one mark, and the backward columns from the other on.
#[derive(Clone, Copy, PartialEq, Eq)]
pub struct Marks {
    pub forward: usize,
    pub backward: usize,
}

/// The places of a burst with room for 128, the forward and backward columns of each and of the end, and the depth.
// It is plain and has no invariant of its own, so that one element is changed in place: `requires` of its methods say what they need.
#[derive(Clone, Copy)]
pub struct Burst {
    pub(crate) places: [Place; 128],
    pub(crate) count: usize,
    pub(crate) depth: usize,
    pub(crate) shape: Shape,
    pub(crate) forward: [Column; 129],
    pub(crate) backward: [[u32; 16]; 129],
    pub(crate) marks: Marks,
}
