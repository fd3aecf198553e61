//! Backward elements: what leads on from a history.
ghost use Rattle.std.specs.Prelude.{◌≡◌, ◌+◌, ◌*◌, ◌/◌, ◌%◌, ◌<◌, ◌≤◌, length};
ghost use Rattle.trellis.specs.Lists.{Filled};
ghost use Rattle.sweep.specs.Burst.{symbols, states, column_elements, trellis_of, backward_at, HasBackwardColumn, HasBackwardElements};
ghost use Rattle.sweep.specs.Ways.{way_on};

use crate::full::FullTrellis;
use crate::joins::join_below;
use channel::Channel;
use joining::Joining;

impl<'a, C: Channel> FullTrellis<'a, C> {
    // One way from a history on: the step by a symbol, and then all that leads on.
    fn way_on<J: Joining>(&self, backward: &[J], column: usize, state: usize, symbol: usize) -> J
        requires column { column < length self.now.places }
        requires state { state < states C.meaning self.now }
        requires symbol { symbol < symbols C.meaning self.now }
        requires after { HasBackwardColumn J.operations J.worth_of C.meaning self.now backward.now (column + 1) }
        ensures { result ≡ way_on (trellis_of J.operations J.worth_of C.meaning self.now) (length self.now.places) column state symbol }
    {
        let step = self.weight::<J>(column, state, symbol);
        let next = self.next_state(state, symbol);
        step.follow(self.element(backward, column + 1, next))
    }

    // The element of a history in a column, over all symbols that lead on from it to the column after.
    fn lead_on<J: Joining>(&self, backward: &[J], column: usize, state: usize) -> J
        requires column { column < length self.now.places }
        requires state { state < states C.meaning self.now }
        requires after { HasBackwardColumn J.operations J.worth_of C.meaning self.now backward.now (column + 1) }
        ensures { result ≡ backward_at J.operations J.worth_of C.meaning self.now column state }
    {
        join_below(
            self.symbols,
            |symbol| self.way_on(backward, column, state, symbol),
        )
    }

    // The element at an index of the list, from those after it.
    fn backward_element<J: Joining>(&self, backward: &[J], index: usize) -> J
        requires index { index < column_elements C.meaning self.now }
        requires after { HasBackwardElements J.operations J.worth_of C.meaning self.now backward.now (index + 1) (column_elements C.meaning self.now) }
        ensures { result ≡ backward_at J.operations J.worth_of C.meaning self.now (index / states C.meaning self.now) (index % states C.meaning self.now) }
    {
        let column = index / self.states;
        let state = index % self.states;
        if column == self.places.len() {
            return J::unit();
        }
        self.lead_on(backward, column, state)
    }

    /// Fills the backward columns, from the last to the first.
    pub(crate) fn fill_backward<J: Joining>(&self, backward: &mut [J])
        requires room { column_elements C.meaning self.now ≤ length backward.old }
        ensures { Filled J.operations.none backward.old backward.new (length self.now.places + 1) (states C.meaning self.now) (backward_at J.operations J.worth_of C.meaning self.now) }
    {
        // By index: an element is worked from those after it in the list.
        for index in (0..self.column_elements()).rev() {
            backward[index] = self.backward_element(backward, index);
        }
    }
}
