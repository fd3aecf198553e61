//! One step of the trellis: where it leads, and what it is worth; and the elements of lists of columns.
ghost use Rattle.std.specs.Prelude.{◌≡◌, ◌+◌, ◌*◌, ◌%◌, ◌<◌, ◌≤◌, length, slice_index_or};
ghost use Rattle.sweep.specs.Burst.{symbols, states, column_elements, trellis_of};

use crate::full::FullTrellis;
use burst::Place;
use channel::Channel;
use joining::Joining;

impl<'a, C: Channel> FullTrellis<'a, C> {
    // The pair of a history and a symbol as a number: the window.
    fn window(&self, state: usize, symbol: usize) -> usize
        requires state { state < states C.meaning self.now }
        requires symbol { symbol < symbols C.meaning self.now }
        ensures { result ≡ symbol + symbols C.meaning self.now * state }
    {
        symbol + self.symbols * state
    }

    /// The history after a history and a symbol.
    pub(crate) fn next_state(&self, state: usize, symbol: usize) -> usize
        requires state { state < states C.meaning self.now }
        requires symbol { symbol < symbols C.meaning self.now }
        ensures within { result < states C.meaning self.now }
        ensures next { result ≡ (symbol + symbols C.meaning self.now * state) % states C.meaning self.now }
    {
        self.window(state, symbol) % self.states
    }

    /// What the step from a history by a symbol is worth: first the channel's cost, then the prior's.
    pub(crate) fn weight<J: Joining>(&self, place: usize, state: usize, symbol: usize) -> J
        requires place { place < length self.now.places }
        requires state { state < states C.meaning self.now }
        requires symbol { symbol < symbols C.meaning self.now }
        ensures { result ≡ (trellis_of J.operations J.worth_of C.meaning self.now).weight place state symbol }
    {
        let places = self.places;
        let Place { sample, priors } = places[place];
        let window = self.window(state, symbol);
        J::worth(self.channel.cost(sample, window)).follow(J::worth(priors.cost(symbol)))
    }

    /// The element of a history in a column of a list.
    pub(crate) fn element<J: Joining>(&self, list: &[J], column: usize, state: usize) -> J
        requires column { column ≤ length self.now.places }
        requires state { state < states C.meaning self.now }
        requires room { column_elements C.meaning self.now ≤ length list.now }
        ensures { result ≡ slice_index_or list.now (column * states C.meaning self.now + state) J.operations.none }
    {
        list[column * self.states + state]
    }
}
