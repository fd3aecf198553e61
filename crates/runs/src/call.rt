//! The calls of a receiver as values, and what it answers.
use burst::{Place, Priors, Refusal};
use channel::Sample;
use cost::{Cost, Lean};
use receiver::{Marks, Settled};

/// What a receiver is asked.
#[derive(Clone, Copy)]
pub enum Call {
    /// Append a place.
    Add(Place),
    /// Change the sample of a place.
    Retake(usize, Sample),
    /// Change the priors of a place.
    Reweigh(usize, Priors),
    /// Remove the last places, so many.
    Cut(usize),
    /// Set the depth.
    Depth(usize),
    /// Work every stale column.
    Settle,
    /// The cost at a place of a value.
    Cost(usize, usize),
    /// The lean at a place of a value.
    Lean(usize, usize),
    /// The shown symbol at a place.
    Symbol(usize),
    /// Write the shown symbols into a list of bytes.
    Shown,
    /// Which columns are fresh.
    Marks,
}

/// What it answers to a call that it does not refuse.
#[derive(Clone, Copy, PartialEq, Eq)]
pub enum Answer {
    /// The change is made, or the symbols are written.
    Done,
    /// How many columns were worked, and the best.
    Settled(Settled),
    Cost(Cost),
    Lean(Lean),
    Symbol(u8),
    /// Which columns are fresh.
    Marks(Marks),
}

/// What two receivers answer to the same call.
#[derive(Clone, Copy, PartialEq, Eq)]
pub struct Heard {
    pub one: Result<Answer, Refusal>,
    pub other: Result<Answer, Refusal>,
}
