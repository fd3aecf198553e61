//! What a line says.
use crate::prior::Prior;
use channel::Sample;
use prefix::Prefix;
use table::Entry;

/// A channel line of the taps kind. Of more than nine taps the first nine are held, and of a tap past 16 bits the nearest number of 16 bits.
#[derive(Clone, Copy)]
pub struct TapsLine {
    pub noise: i32,
    pub(crate) taps: Prefix<i16, 9>,
}

/// A channel line of the table kind. Of more than 257 entries the first 257 are held.
#[derive(Clone, Copy)]
pub struct TableLine {
    pub noise: i32,
    pub memory: i32,
    pub(crate) entries: Prefix<Entry, 257>,
}

/// A channel line of the code kind.
#[derive(Clone, Copy)]
pub struct CodeLine {
    pub memory: i32,
    pub first: i32,
    pub second: i32,
}

/// A place line, with two or four priors.
#[derive(Clone, Copy)]
pub struct PlaceLine {
    pub sample: Sample,
    pub(crate) priors: Prefix<Prior, 5>,
}

/// What a line says.
#[derive(Clone, Copy)]
pub enum Line {
    Taps(TapsLine),
    Table(TableLine),
    Code(CodeLine),
    Depth(i32),
    Place(PlaceLine),
}
