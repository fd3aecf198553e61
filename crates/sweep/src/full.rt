//! The trellis of all histories of a burst.
ghost use Rattle.std.specs.Prelude.{length};
ghost use Rattle.sweep.specs.Burst.{Burst};
ghost use Rattle.sweep.specs.Sizes.{Sized};

use burst::Place;
use channel::Channel;
use std::marker::Model;

mod backs;
mod checks;
mod fronts;
mod meets;
mod sizes;
mod steps;

pub(crate) use checks::Lengths;
pub(crate) use meets::Columns;

/// The trellis of all histories of a burst: a channel and at most 128 places, with the numbers of symbols and histories.
#[derive(Drop)]
pub(crate) struct FullTrellis<'a, C: Channel> {
    channel: &'a C,
    places: &'a [Place],
    symbols: usize,
    states: usize,
}

impl<'a, C: Channel> Model for FullTrellis<'a, C> {
    ghost Value = { Burst C };

    ghost view = { λ t. record { channel = t.channel.now; places = t.places.now } };

    ghost invariant = { λ t. Sized (C.meaning t.channel.now) t.symbols t.states (length t.places.now) };
}
