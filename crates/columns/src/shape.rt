//! The sizes of a trellis.
ghost use Rattle.std.specs.Prelude.{◌≡◌, ◌*◌, ◌≤◌};

/// The sizes of a channel's trellis at a depth.
#[derive(Clone, Copy)]
pub struct Shape {
    pub(crate) symbols: usize,
    pub(crate) states: usize,
    pub(crate) histories: usize,
    ghost some: { 1 ≤ symbols },
    ghost limited: { symbols ≤ 4 },
    ghost inhabited: { 1 ≤ states },
    ghost few: { states ≤ 16 },
    ghost pairs: { states * symbols ≤ 64 },
    ghost remembered: { 1 ≤ histories },
    ghost narrow: { histories ≤ 128 },
    ghost within: { states ≤ histories },
}
