//! A section of the trellis.
ghost use Rattle.std.specs.Prelude.{◌≡◌};
ghost use Rattle.columns.specs.Pairs.{pairs};

use crate::column::Column;
use crate::shape::Shape;
use burst::Place;
use channel::Channel;

/// A section of the trellis: a place, and the forward column before it.
#[derive(Drop)]
pub struct Section<'a, C: Channel> {
    pub channel: &'a C,
    pub shape: Shape,
    pub place: &'a Place,
    pub column: &'a Column,
}

impl<C: Channel> Section<'_, C> {
    // The number of pairs of a state and a symbol.
    pub(crate) fn pairs(&self) -> usize
        ensures { result ≡ pairs self.now.shape }
    {
        self.shape.states * self.shape.symbols
    }
}
