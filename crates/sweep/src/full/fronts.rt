//! Forward elements: what leads to a history.
ghost use Rattle.std.specs.Prelude.{◌≡◌, ◌+◌, ◌*◌, ◌/◌, ◌%◌, ◌<◌, ◌≤◌, length, if◌then◌else◌, nat_eq};
ghost use Rattle.trellis.specs.Lists.{Filled};
ghost use Rattle.sweep.specs.Burst.{symbols, states, column_elements, trellis_of, forward_at, HasForwardColumn, HasForwardElements};
ghost use Rattle.sweep.specs.Ways.{way_into};

use crate::full::FullTrellis;
use crate::joins::join_below;
use channel::Channel;
use joining::Joining;

// The element of a history in column 0: unit at the history of zeros, and none elsewhere.
fn start_element<J: Joining>(state: usize) -> J
    ensures { result ≡ (if nat_eq state 0 then J.operations.unit else J.operations.none) }
{
    if state == 0 { J::unit() } else { J::none() }
}

impl<'a, C: Channel> FullTrellis<'a, C> {
    // One way into a history: of the pairs of a history and a symbol that lead to it, the one with this oldest symbol.
    fn way_into<J: Joining>(&self, forward: &[J], column: usize, state: usize, oldest: usize) -> J
        requires column { column < length self.now.places }
        requires state { state < states C.meaning self.now }
        requires oldest { oldest < symbols C.meaning self.now }
        requires before { HasForwardColumn J.operations J.worth_of C.meaning self.now forward.now column }
        ensures { result ≡ way_into (trellis_of J.operations J.worth_of C.meaning self.now) column state oldest }
    {
        let pair = state + self.states * oldest;
        let from = pair / self.symbols;
        let before = self.element(forward, column, from);
        before.follow(self.weight(column, from, pair % self.symbols))
    }

    // The element of a history in the column after a column, over all pairs of a history and a symbol that lead to it.
    fn gather<J: Joining>(&self, forward: &[J], column: usize, state: usize) -> J
        requires column { column < length self.now.places }
        requires state { state < states C.meaning self.now }
        requires before { HasForwardColumn J.operations J.worth_of C.meaning self.now forward.now column }
        ensures { result ≡ forward_at J.operations J.worth_of C.meaning self.now (column + 1) state }
    {
        join_below(
            self.symbols,
            |oldest| self.way_into(forward, column, state, oldest),
        )
    }

    // The element at an index of the list, from those before it.
    fn forward_element<J: Joining>(&self, forward: &[J], index: usize) -> J
        requires index { index < column_elements C.meaning self.now }
        requires before { HasForwardElements J.operations J.worth_of C.meaning self.now forward.now 0 index }
        ensures { result ≡ forward_at J.operations J.worth_of C.meaning self.now (index / states C.meaning self.now) (index % states C.meaning self.now) }
    {
        let column = index / self.states;
        let state = index % self.states;
        if column == 0 {
            return start_element(state);
        }
        self.gather(forward, column - 1, state)
    }

    /// Fills the forward columns, from the first to the last.
    pub(crate) fn fill_forward<J: Joining>(&self, forward: &mut [J])
        requires room { column_elements C.meaning self.now ≤ length forward.old }
        ensures { Filled J.operations.none forward.old forward.new (length self.now.places + 1) (states C.meaning self.now) (forward_at J.operations J.worth_of C.meaning self.now) }
    {
        // By index: an element is worked from those before it in the list. One function for both lists would need its order as an argument, and be longer.
        for index in 0..self.column_elements() {
            forward[index] = self.forward_element(forward, index);
        }
    }
}
