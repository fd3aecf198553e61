//! A place of a burst.
use crate::priors::Priors;
use channel::Sample;

/// What was heard at a place, and what is known of its symbol beforehand.
#[derive(Clone, Copy)]
pub struct Place {
    pub sample: Sample,
    pub priors: Priors,
}
