//! The shape of a channel's trellis at a depth.
ghost use Rattle.std.specs.Prelude.{◌≡◌, ◌≤◌, true, false, MatchResult};
ghost use Rattle.burst.specs.Refusals.{number_of};
ghost use Rattle.recursions.specs.Depths.{states, depth_allowed, largest_depth};
ghost use Rattle.columns.specs.Shapes.{Shapes};

use crate::shape::Shape;
use burst::{Refusal, histories};
use channel::Channel;

impl Shape {
    /// The greatest number of states.
    pub const STATES: usize = 16;

    // The number of states at a depth that is not past the memory.
    fn count<C: Channel>(channel: &C, depth: usize) -> usize
        requires { depth ≤ (C.meaning channel.now).memory }
        ensures { result ≡ states (C.meaning channel.now) depth }
    {
        C::alphabet().pow(depth.saturating_sub(1) as u32)
    }

    // Whether a depth is allowed.
    fn allowed<C: Channel>(channel: &C, depth: usize) -> bool
        ensures { result ≡ depth_allowed (C.meaning channel.now) depth }
    {
        1 <= depth && depth <= channel.memory() && Self::count(channel, depth) <= Self::STATES
    }

    // The shape at a depth that is allowed.
    fn of<C: Channel>(channel: &C, depth: usize) -> Shape
        requires { depth_allowed (C.meaning channel.now) depth ≡ true }
        ensures { Shapes (C.meaning channel.now) depth result }
    {
        Shape {
            symbols: C::alphabet(),
            states: Self::count(channel, depth),
            histories: histories(channel),
        }
    }

    /// The shape of a channel's trellis at a depth, if that depth is allowed.
    pub fn new<C: Channel>(channel: &C, depth: usize) -> Result<Shape, Refusal>
        ensures { MatchResult result (λ s. (depth_allowed (C.meaning channel.now) depth ≡ true) × Shapes (C.meaning channel.now) depth s) (λ e. (depth_allowed (C.meaning channel.now) depth ≡ false) × (number_of e ≡ 7)) }
    {
        if !Self::allowed(channel, depth) {
            return Err(Refusal::BadDepth);
        }
        Ok(Self::of(channel, depth))
    }

    // The greatest depth whose states are not too many.
    fn limit<C: Channel>() -> usize
        ensures two { C.Channel.symbols ≡ 2 → result ≡ 5 }
        ensures four { C.Channel.symbols ≡ 4 → result ≡ 3 }
    {
        if C::alphabet() == 2 { 5 } else { 3 }
    }

    /// The largest allowed depth of a channel, and its shape.
    pub fn deepest<C: Channel>(channel: &C) -> (usize, Shape)
        ensures depth { result.0 ≡ largest_depth (C.meaning channel.now) }
        ensures allowed { depth_allowed (C.meaning channel.now) result.0 ≡ true }
        ensures shape { Shapes (C.meaning channel.now) result.0 result.1 }
    {
        let depth = channel.memory().min(Self::limit::<C>());
        (depth, Self::of(channel, depth))
    }

    /// The number of symbol values.
    pub fn symbols(self) -> usize
        ensures { result ≡ self.symbols }
    {
        self.symbols
    }

    /// The number of states.
    pub fn states(self) -> usize
        ensures { result ≡ self.states }
    {
        self.states
    }
}
