//! The readings of a receiver.
ghost use Rattle.std.specs.Prelude.{◌≡◌, length, slice_index};
ghost use Rattle.cost.specs.Leans.{lean_of};
ghost use Rattle.burst.specs.Refusals.{refused_by};
ghost use Rattle.recursions.specs.Answers.{value_cost, best, shown};
ghost use Rattle.receiver.specs.Bursts.{places_of};
ghost use Rattle.receiver.specs.Changes.{Passed};
ghost use Rattle.receiver.specs.Readings.{Answers, Readable, Shows, Leaves, ShownIsBest};
ghost use Rattle.receiver.specs.Standing.{stale, cost_refusal, symbol_refusal, shown_refusal};

use crate::inner::MOST;
use crate::receiver::Receiver;
use burst::Refusal;
use channel::Channel;
use cost::{Cost, Lean};

impl<C: Channel> Receiver<C> {
    // Whether a column is stale.
    fn is_stale(&self) -> bool
        ensures { result ≡ stale self.now.burst.count self.now.burst.marks }
    {
        !(self.burst.marks.forward == self.burst.count && self.burst.marks.backward == 0)
    }

    // Whether the cost of a value at a place can be read.
    fn check_value(&self, place: usize, value: usize) -> Result<(), Refusal>
        ensures answer { refused_by result ≡ cost_refusal (C.meaning self.now.channel) self.now.burst.count self.now.burst.marks place value }
        ensures passed { Passed result (Readable (C.meaning self.now.channel) self.now.burst place value) }
    {
        if self.burst.count <= place {
            return Err(Refusal::NoPlace);
        }
        if C::alphabet() <= value {
            return Err(Refusal::NoValue);
        }
        if self.is_stale() {
            return Err(Refusal::Stale);
        }
        Ok(())
    }

    /// The cost of a value at a place.
    pub fn cost(&self, place: usize, value: usize) -> Result<Cost, Refusal>
        ensures answer { refused_by result ≡ cost_refusal (C.meaning self.now.channel) self.now.burst.count self.now.burst.marks place value }
        ensures value { Answers result (λ c. c ≡ value_cost (C.meaning self.now.channel) self.now.burst.depth (places_of self.now.burst) place value) }
    {
        self.check_value(place, value)?;
        Ok(self.burst.cost(&self.channel, place, value))
    }

    /// The lean of a value at a place: the cost of 0 minus the cost of the value.
    pub fn lean(&self, place: usize, value: usize) -> Result<Lean, Refusal>
        ensures answer { refused_by result ≡ cost_refusal (C.meaning self.now.channel) self.now.burst.count self.now.burst.marks place value }
        ensures value { Answers result (λ l. l ≡ lean_of (value_cost (C.meaning self.now.channel) self.now.burst.depth (places_of self.now.burst) place 0) (value_cost (C.meaning self.now.channel) self.now.burst.depth (places_of self.now.burst) place value)) }
    {
        self.check_value(place, value)?;
        let zero = self.burst.cost(&self.channel, place, 0);
        Ok(zero.minus(self.burst.cost(&self.channel, place, value)))
    }

    /// The symbol that the shown sequence has at a place.
    pub fn symbol(&self, place: usize) -> Result<u8, Refusal>
        ensures answer { refused_by result ≡ symbol_refusal self.now.burst.count self.now.burst.marks (best (C.meaning self.now.channel) self.now.burst.depth (places_of self.now.burst)) place }
        ensures value { Answers result (λ a. a ≡ slice_index (shown (C.meaning self.now.channel) self.now.burst.depth (places_of self.now.burst)) place) }
    {
        if self.burst.count <= place {
            return Err(Refusal::NoPlace);
        }
        if self.is_stale() {
            return Err(Refusal::Stale);
        }
        let Some(state) = self.burst.last_state() else {
            return Err(Refusal::NoBest);
        };
        let mut list = [0; MOST];
        self.burst.show(state, &mut list);
        Ok(list[place])
    }

    /// Writes the shown sequence at the front of a list, and leaves the rest of it.
    pub fn shown(&self, list: &mut [u8]) -> Result<(), Refusal>
        ensures answer { refused_by result ≡ shown_refusal self.now.burst.count self.now.burst.marks (best (C.meaning self.now.channel) self.now.burst.depth (places_of self.now.burst)) (length list.old) }
        ensures leaves { Leaves result self.now.burst.count list.old list.new }
        ensures shown { Answers result (λ _. Shows (C.meaning self.now.channel) self.now.burst list.old list.new) }
        ensures law { Answers result (λ _. ShownIsBest) }
    {
        if self.is_stale() {
            return Err(Refusal::Stale);
        }
        let Some(state) = self.burst.last_state() else {
            return Err(Refusal::NoBest);
        };
        if list.len() < self.burst.count {
            return Err(Refusal::TooShort);
        }
        self.burst.show(state, list);
        Ok(())
    }
}
