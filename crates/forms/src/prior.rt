//! A prior as a line has it.

/// A number, which may be out of the range of priors, or barred: the word that a line has, where an `Option` has `None`.
#[derive(Clone, Copy, PartialEq, Eq, Debug)]
pub enum Prior {
    Number(i32),
    Barred,
}
