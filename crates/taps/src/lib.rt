//! The taps kind: an echo as a list of whole numbers, and a noise.
#![tactic(auto)]

ghost use Rattle.std.specs.Prelude.{◌≡◌, ◌≤◌, true, length};
ghost use Rattle.prefix.specs.Prefix.{items};
ghost use Rattle.taps.specs.Rule.{each_in_range};

use channel::Noise;
use prefix::Prefix;

mod load;
mod price;

/// One to eight taps, each from -512 to 511, and a noise.
#[derive(Clone, Copy)]
pub struct Taps {
    taps: Prefix<i16, 8>,
    noise: Noise,
    ghost some: { 1 ≤ length (items taps) },
    ghost few: { length (items taps) ≤ 8 },
    ghost ranged: { each_in_range (items taps) ≡ true },
}
