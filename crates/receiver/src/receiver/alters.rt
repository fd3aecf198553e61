//! The calls that change a receiver's places.
ghost use Rattle.std.specs.Prelude.{◌≡◌, ◌<◌, ◌≤◌, true};
ghost use Rattle.channel.specs.Meaning.{taken};
ghost use Rattle.burst.specs.Places.{priors_allowed};
ghost use Rattle.burst.specs.Refusals.{refused_by};
ghost use Rattle.burst.specs.Sequences.{place_at};
ghost use Rattle.receiver.specs.Bursts.{places_of};
ghost use Rattle.receiver.specs.Changes.{Altered, Shortened, Then, Passed};
ghost use Rattle.receiver.specs.Sound.{Fits, TellsFull};
ghost use Rattle.receiver.specs.Standing.{standing, full_depth, altered, retake_refusal, retaken, reweigh_refusal, reweighed, cut_refusal};

use crate::receiver::Receiver;
use burst::{Place, Priors, Refusal};
use channel::{Channel, Sample};

impl<C: Channel> Receiver<C> {
    // Whether the depth is the channel's whole memory.
    fn at_full_depth(&self) -> bool
        ensures tells { TellsFull (C.meaning self.now.channel) self.now.burst result }
    {
        self.burst.depth == self.channel.memory()
    }

    // The record of place k.
    fn place(&self, k: usize) -> Place
        requires { k < self.now.burst.count }
        ensures value { result ≡ place_at (places_of self.now.burst) k }
        ensures fits { Fits (C.meaning self.now.channel) result }
    {
        self.burst.places[k]
    }

    // Puts another record in the place of place k.
    fn alter(&mut self, k: usize, place: Place)
        requires held { k < self.old.burst.count }
        requires fits { Fits (C.meaning self.old.channel) place }
        ensures channel { self.new.channel ≡ self.old.channel }
        ensures altered { Altered self.old.burst self.new.burst (altered (full_depth (C.meaning self.old.channel) self.old.burst.depth) (standing self.old.burst) k place) }
    {
        let full = self.at_full_depth();
        self.burst.alter(full, k, place);
    }

    // Whether place k can have another sample.
    fn check_sample(&self, k: usize, sample: Sample) -> Result<(), Refusal>
        ensures answer { refused_by result ≡ retake_refusal (C.meaning self.now.channel) self.now.burst.count k sample }
        ensures held { Passed result (k < self.now.burst.count) }
        ensures taken { Passed result (taken (C.meaning self.now.channel) sample ≡ true) }
    {
        if !self.channel.takes(sample) {
            return Err(Refusal::NotTaken);
        }
        if self.burst.count <= k {
            return Err(Refusal::NoPlace);
        }
        Ok(())
    }

    // Whether the priors keep their rule for the channel's symbols.
    fn takes_priors(&self, priors: Priors) -> bool
        ensures { result ≡ priors_allowed (C.meaning self.now.channel).symbols priors }
    {
        priors.allowed(C::alphabet())
    }

    // Whether place k can have other priors.
    fn check_priors(&self, k: usize, priors: Priors) -> Result<(), Refusal>
        ensures answer { refused_by result ≡ reweigh_refusal (C.meaning self.now.channel) self.now.burst.count k priors }
        ensures held { Passed result (k < self.now.burst.count) }
        ensures allowed { Passed result (priors_allowed (C.meaning self.now.channel).symbols priors ≡ true) }
    {
        if !self.takes_priors(priors) {
            return Err(Refusal::BadPriors);
        }
        if self.burst.count <= k {
            return Err(Refusal::NoPlace);
        }
        Ok(())
    }

    /// Changes the sample of a place and keeps its priors, or refuses and changes nothing.
    pub fn retake(&mut self, place: usize, sample: Sample) -> Result<(), Refusal>
        ensures channel { self.new.channel ≡ self.old.channel }
        ensures answer { refused_by result ≡ retake_refusal (C.meaning self.old.channel) self.old.burst.count place sample }
        ensures stands { Then result self.old.burst self.new.burst (Altered self.old.burst self.new.burst (retaken (full_depth (C.meaning self.old.channel) self.old.burst.depth) (standing self.old.burst) place sample)) }
    {
        self.check_sample(place, sample)?;
        let before = self.place(place);
        self.alter(place, Place { sample, ..before });
        Ok(())
    }

    /// Changes the priors of a place and keeps its sample, or refuses and changes nothing.
    pub fn reweigh(&mut self, place: usize, priors: Priors) -> Result<(), Refusal>
        ensures channel { self.new.channel ≡ self.old.channel }
        ensures answer { refused_by result ≡ reweigh_refusal (C.meaning self.old.channel) self.old.burst.count place priors }
        ensures stands { Then result self.old.burst self.new.burst (Altered self.old.burst self.new.burst (reweighed (full_depth (C.meaning self.old.channel) self.old.burst.depth) (standing self.old.burst) place priors)) }
    {
        self.check_priors(place, priors)?;
        let before = self.place(place);
        self.alter(place, Place { priors, ..before });
        Ok(())
    }

    // Whether there are so many places.
    fn check_cut(&self, n: usize) -> Result<(), Refusal>
        ensures answer { refused_by result ≡ cut_refusal self.now.burst.count n }
        ensures held { Passed result (n ≤ self.now.burst.count) }
    {
        if self.burst.count < n {
            return Err(Refusal::NoPlace);
        }
        Ok(())
    }

    /// Removes the last places, so many, or refuses and changes nothing.
    pub fn cut(&mut self, n: usize) -> Result<(), Refusal>
        ensures channel { self.new.channel ≡ self.old.channel }
        ensures answer { refused_by result ≡ cut_refusal self.old.burst.count n }
        ensures stands { Then result self.old.burst self.new.burst (Shortened self.old.burst self.new.burst n) }
    {
        self.check_cut(n)?;
        self.burst.cut(n);
        Ok(())
    }
}
