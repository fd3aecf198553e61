//! Pinning a place to a value.
ghost use Rattle.std.specs.Prelude.{◌≡◌, ◌<◌, not, ◌&&◌, length, if◌then◌else◌, OnOk, ◌==◌, nat_lt};
ghost use Rattle.burst.specs.Refusals.{refused_by};
ghost use Rattle.burst.specs.Sequences.{place_at};
ghost use Rattle.sweep.specs.Pins.{priors_pinned, place_pinned, barred_at, pin_refusal, PinStands};

use burst::{Place, Priors, Refusal};
use channel::Channel;
use std::array;

// A prior once a value is pinned: barred if it is that of another symbol.
fn pinned_prior(symbols: usize, pinned: usize, value: usize, prior: u16) -> u16
    ensures { result ≡ (if nat_lt value symbols && not (value == pinned) then 65535 else prior) }
{
    if value < symbols && value != pinned {
        Priors::BARRED
    } else {
        prior
    }
}

// The priors once a value is pinned.
fn pinned_priors(symbols: usize, pinned: usize, priors: Priors) -> Priors
    ensures { result ≡ priors_pinned symbols pinned priors }
{
    let numbers = priors.numbers();
    Priors::new(array::from_fn(|value| pinned_prior(symbols, pinned, value, numbers[value])))
}

// The record of a place once a value is pinned.
fn pinned_place(symbols: usize, value: usize, place: Place) -> Place
    ensures { result ≡ place_pinned symbols value place }
{
    Place {
        sample: place.sample,
        priors: pinned_priors(symbols, value, place.priors),
    }
}

// Whether the value is a symbol, and barred.
fn is_barred_at(symbols: usize, value: usize, priors: Priors) -> bool
    ensures { result ≡ barred_at symbols value priors }
{
    value < symbols && priors.cost(value).is_barred()
}

// Refuses a pinning that cannot be, for the reason with the smallest number.
fn check_pin(symbols: usize, places: &[Place], place: usize, value: usize) -> Result<(), Refusal>
    ensures within { OnOk result (place < length places.now) }
    ensures refusal { refused_by result ≡ pin_refusal symbols places.now place value }
{
    if places.len() <= place {
        return Err(Refusal::NoPlace);
    }
    let priors = places[place].priors;
    if !priors.allowed(symbols) || is_barred_at(symbols, value, priors) {
        return Err(Refusal::BadPriors);
    }
    if symbols <= value {
        return Err(Refusal::NoValue);
    }
    Ok(())
}

/// Pins a place of a burst to a value, for a kind of channel: the priors of the kind's other values there become barred. The prior of the value, those of
/// values that are no symbols, the sample and all other records stay. A refused call changes nothing.
pub fn pin<C: Channel>(places: &mut [Place], place: usize, value: usize) -> Result<(), Refusal>
    ensures refusal { refused_by result ≡ pin_refusal C.symbols places.old place value }
    ensures stands { PinStands result C.symbols places.old places.new place value }
{
    let alphabet = C::alphabet();
    check_pin(alphabet, places, place, value)?;
    places[place] = pinned_place(alphabet, value, places[place]);
    Ok(())
}
