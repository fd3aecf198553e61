//! The sizes of a sweep.
ghost use Rattle.std.specs.Prelude.{◌≡◌, ◌+◌, ◌*◌, ◌≤◌, length};
ghost use Rattle.sweep.specs.Burst.{burst_of, column_elements, answer_elements};

use crate::full::FullTrellis;
use burst::{Place, histories};
use channel::Channel;

impl<'a, C: Channel> FullTrellis<'a, C> {
    /// The trellis of a channel and few places.
    #[tactic(auto, using(channel::proofs::Sizes::two_symbols, channel::proofs::Sizes::four_symbols, burst::proofs::Sizes::some_histories))]
    pub(crate) fn new(channel: &'a C, places: &'a [Place]) -> Self
        requires { length places.now ≤ 128 }
        ensures { result ≡ burst_of channel.now places.now }
    {
        FullTrellis {
            channel,
            places,
            symbols: C::alphabet(),
            states: histories(channel),
        }
    }

    /// The number of elements in a list of columns: one column more than there are places.
    pub(crate) fn column_elements(&self) -> usize
        ensures { result ≡ column_elements C.meaning self.now }
    {
        (self.places.len() + 1) * self.states
    }

    /// The number of answers: one for each symbol at each place.
    pub(crate) fn answer_elements(&self) -> usize
        ensures { result ≡ answer_elements C.meaning self.now }
    {
        self.places.len() * self.symbols
    }
}
