//! Which form a line begins as.

/// Which form a line begins as.
#[derive(Clone, Copy)]
pub enum Head {
    Taps,
    Table,
    Code,
    Depth,
    Place,
}
