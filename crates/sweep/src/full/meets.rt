//! Answers: where what leads to a place meets what leads on from it.
ghost use Rattle.std.specs.Prelude.{◌≡◌, ◌+◌, ◌*◌, ◌<◌, ◌≤◌, length};
ghost use Rattle.trellis.specs.Lists.{Filled};
ghost use Rattle.sweep.specs.Burst.{symbols, states, answer_elements, trellis_of, answer_at, HasForwardColumns, HasBackwardColumns};
ghost use Rattle.sweep.specs.Own.{OwnWindows};
ghost use Rattle.sweep.specs.Ways.{way_through};

use crate::full::FullTrellis;
use crate::joins::join_below;
use channel::Channel;
use joining::Joining;

/// The trellis of a burst, with the lists of its forward and its backward columns.
#[derive(Drop)]
pub(crate) struct Columns<'l, C: Channel, J: Joining> {
    pub trellis: &'l FullTrellis<'l, C>,
    pub forward: &'l [J],
    pub backward: &'l [J],
    ghost fronts: { HasForwardColumns J.operations J.worth_of C.meaning trellis.now forward.now },
    ghost backs: { HasBackwardColumns J.operations J.worth_of C.meaning trellis.now backward.now },
}

impl<'l, C: Channel, J: Joining> Columns<'l, C, J> {
    // One way by a symbol at a place, through a history: what leads to the history, the step, and all that leads on.
    fn way_through(&self, place: usize, symbol: usize, state: usize) -> J
        requires place { place < length self.now.trellis.now.places }
        requires symbol { symbol < symbols C.meaning self.now.trellis.now }
        requires state { state < states C.meaning self.now.trellis.now }
        ensures { result ≡ way_through (trellis_of J.operations J.worth_of C.meaning self.now.trellis.now) (length self.now.trellis.now.places) place symbol state }
    {
        let trellis = self.trellis;
        let before = trellis.element(self.forward, place, state);
        let step = trellis.weight(place, state, symbol);
        let next = trellis.next_state(state, symbol);
        let after = trellis.element(self.backward, place + 1, next);
        before.follow(step).follow(after)
    }

    // The answer for a symbol at a place, over all histories.
    fn meet(&self, place: usize, symbol: usize) -> J
        requires place { place < length self.now.trellis.now.places }
        requires symbol { symbol < symbols C.meaning self.now.trellis.now }
        ensures { result ≡ answer_at J.operations J.worth_of C.meaning self.now.trellis.now place symbol }
    {
        let trellis = self.trellis;
        join_below(
            trellis.states,
            |state| self.way_through(place, symbol, state),
        )
    }

    /// Fills the answers, place by place.
    #[tactic(auto, using(crate::proofs::Front::front_filled))]
    pub(crate) fn fill_answers(&self, answers: &mut [J])
        requires room { answer_elements C.meaning self.now.trellis.now ≤ length answers.old }
        ensures filled { Filled J.operations.none answers.old answers.new (length self.now.trellis.now.places) (symbols C.meaning self.now.trellis.now) (answer_at J.operations J.worth_of C.meaning self.now.trellis.now) }
        ensures own { OwnWindows J.operations J.worth_of (C.meaning self.now.trellis.now.channel) self.now.trellis.now.places }
    {
        let trellis = self.trellis;
        let count = trellis.answer_elements();
        for (index, answer) in answers[..count].iter_mut().enumerate() {
            let place = index / trellis.symbols;
            let symbol = index % trellis.symbols;
            *answer = self.meet(place, symbol);
        }
    }
}
