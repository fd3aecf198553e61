//! The calls that change a receiver.
ghost use Rattle.std.specs.Prelude.{◌≡◌, ◌+◌, ◌-◌};
ghost use Rattle.burst.specs.Refusals.{refused_by};
ghost use Rattle.receiver.specs.Bursts.{places_of};
ghost use Rattle.receiver.specs.Changes.{Added, Deepened, Then, Passed};
ghost use Rattle.recursions.specs.Answers.{best};
ghost use Rattle.receiver.specs.Settling.{Left, Worked, best_cost};
ghost use Rattle.receiver.specs.Sound.{HasRoom};
ghost use Rattle.receiver.specs.Standing.{standing, new_standing, add_refusal, depth_refusal};

use crate::inner::{Burst, MOST, Marks};
use crate::receiver::Receiver;
use crate::settle::Settled;
use burst::{Place, Refusal};
use channel::Channel;
use columns::Shape;

impl<C: Channel> Receiver<C> {
    /// A receiver of a channel, without places, at the largest allowed depth.
    pub fn new(channel: C) -> Receiver<C>
        ensures channel { result.channel ≡ channel }
        ensures stands { standing result.burst ≡ new_standing (C.meaning channel) }
    {
        let (depth, shape) = Shape::deepest(&channel);
        Receiver {
            channel,
            burst: Burst::new(depth, shape),
        }
    }

    // Whether a place can be appended.
    fn check_place(&self, place: &Place) -> Result<(), Refusal>
        ensures answer { refused_by result ≡ add_refusal (C.meaning self.now.channel) self.now.burst.count place.now }
        ensures fits { Passed result (HasRoom (C.meaning self.now.channel) self.now.burst place.now) }
    {
        if MOST <= self.burst.count {
            return Err(Refusal::TooMany);
        }
        if !self.channel.takes(place.sample) {
            return Err(Refusal::NotTaken);
        }
        if !place.priors.allowed(C::alphabet()) {
            return Err(Refusal::BadPriors);
        }
        Ok(())
    }

    /// Appends a place, or refuses and changes nothing.
    pub fn add(&mut self, place: Place) -> Result<(), Refusal>
        ensures channel { self.new.channel ≡ self.old.channel }
        ensures answer { refused_by result ≡ add_refusal (C.meaning self.old.channel) self.old.burst.count place }
        ensures stands { Then result self.old.burst self.new.burst (Added self.old.burst self.new.burst place) }
    {
        self.check_place(&place)?;
        self.burst.add(place);
        Ok(())
    }

    /// Sets the depth, or refuses and changes nothing.
    pub fn set_depth(&mut self, depth: usize) -> Result<(), Refusal>
        ensures channel { self.new.channel ≡ self.old.channel }
        ensures answer { refused_by result ≡ depth_refusal (C.meaning self.old.channel) depth }
        ensures stands { Then result self.old.burst self.new.burst (Deepened self.old.burst self.new.burst depth) }
    {
        let shape = Shape::new(&self.channel, depth)?;
        self.burst.deepen(depth, shape);
        Ok(())
    }

    /// Works every stale column, and answers how many these were and the best, or none.
    pub fn settle(&mut self) -> Settled
        ensures channel { self.new.channel ≡ self.old.channel }
        ensures count { result.columns ≡ self.old.burst.count - self.old.burst.marks.forward + self.old.burst.marks.backward }
        ensures left { Left self.old.burst self.new.burst }
        ensures worked { Worked (C.meaning self.old.channel) self.old.burst self.new.burst result.best }
        ensures best { best_cost result.best ≡ best (C.meaning self.old.channel) self.old.burst.depth (places_of self.old.burst) }
    {
        self.burst.settle(&self.channel)
    }

    /// Which columns are fresh.
    pub fn marks(&self) -> Marks
        ensures { result ≡ self.now.burst.marks }
    {
        self.burst.marks
    }

    /// The channel.
    pub fn channel(&self) -> &C
        ensures { result.now ≡ self.now.channel }
    {
        &self.channel
    }

    /// The depth.
    pub fn depth(&self) -> usize
        ensures { result ≡ self.now.burst.depth }
    {
        self.burst.depth
    }

    /// The places.
    pub fn places(&self) -> &[Place]
        ensures { result.now ≡ places_of self.now.burst }
    {
        &self.burst.places[0..self.burst.count]
    }
}
