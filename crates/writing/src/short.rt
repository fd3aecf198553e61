//! Why a text is not written.

/// The list is too short for the text.
#[derive(Clone, Copy, PartialEq, Eq, Debug)]
pub struct TooShort;
