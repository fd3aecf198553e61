//! The first head of a text.

/// Which head comes first.
pub(crate) enum First<C> {
    Channel(C),
    Depth(i32),
}
