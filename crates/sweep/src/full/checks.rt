//! The checks of a sweep.
ghost use Rattle.std.specs.Prelude.{◌≡◌, length, IfOk};
ghost use Rattle.burst.specs.Refusals.{refused_by};
ghost use Rattle.sweep.specs.Burst.{burst_of, symbols, states, Roomy};
ghost use Rattle.sweep.specs.Checks.{each_taken, each_allowed, lists_have_room, sweep_refusal};

use crate::full::FullTrellis;
use burst::{Place, Refusal};
use channel::Channel;

// The most places of a burst.
const MOST_PLACES: usize = 128;

// Whether the channel takes each sample.
fn all_taken<C: Channel>(channel: &C, places: &[Place]) -> bool
    ensures { result ≡ each_taken (C.meaning channel.now) places.now }
{
    places.iter().all(|place| channel.takes(place.sample))
}

// Whether the priors of each place keep their rule.
fn all_allowed(symbols: usize, places: &[Place]) -> bool
    ensures { result ≡ each_allowed symbols places.now }
{
    places.iter().all(|place| place.priors.allowed(symbols))
}

/// The lengths of the lists to be filled.
#[derive(Clone, Copy)]
pub(crate) struct Lengths {
    pub forward: usize,
    pub backward: usize,
    pub answers: usize,
}

impl<'a, C: Channel> FullTrellis<'a, C> {
    // Whether the lists are long enough.
    fn have_room(&self, lengths: Lengths) -> bool
        ensures { result ≡ lists_have_room (symbols C.meaning self.now) (states C.meaning self.now) (length self.now.places) lengths.forward lengths.backward lengths.answers }
    {
        let columns = self.column_elements();
        columns <= lengths.forward
            && columns <= lengths.backward
            && self.answer_elements() <= lengths.answers
    }

    /// The trellis of a burst that can be swept into lists of these lengths, or the refusal with the smallest number.
    pub(crate) fn checked(
        channel: &'a C,
        places: &'a [Place],
        lengths: Lengths,
    ) -> Result<Self, Refusal>
        ensures made { IfOk result (λ t. t ≡ burst_of channel.now places.now) }
        ensures room { IfOk result (λ t. Roomy C.meaning t lengths.forward lengths.backward lengths.answers) }
        ensures refusal { refused_by result ≡ sweep_refusal (C.meaning channel.now) places.now lengths.forward lengths.backward lengths.answers }
    {
        if MOST_PLACES < places.len() {
            return Err(Refusal::TooMany);
        }
        if !all_taken(channel, places) {
            return Err(Refusal::NotTaken);
        }
        if !all_allowed(C::alphabet(), places) {
            return Err(Refusal::BadPriors);
        }
        let trellis = FullTrellis::new(channel, places);
        if !trellis.have_room(lengths) {
            return Err(Refusal::TooShort);
        }
        Ok(trellis)
    }
}
