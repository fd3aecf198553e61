//! Making and loading taps.
ghost use Rattle.std.specs.Prelude.{◌≡◌, ◌≤◌, [], ◌∷◌, length, pos};
ghost use Rattle.channel.specs.Refusals.{refused_by};
ghost use Rattle.prefix.specs.Prefix.{items};
ghost use Rattle.taps.specs.Rule.{tap_in_range, each_in_range, load_refusal};
ghost use Rattle.taps.specs.Held.{taps_of, noise_of, Stands};

use crate::Taps;
use channel::{Noise, Refusal};
use prefix::Prefix;

impl Taps {
    /// The least tap.
    pub const LOWEST: i16 = -512;
    /// The greatest tap.
    pub const HIGHEST: i16 = 511;
    /// The greatest number of taps.
    pub const MOST: usize = 8;

    /// One tap 0, and the noise 8.
    pub fn blank() -> Taps
        ensures taps { taps_of result ≡ pos 0 ∷ [] }
        ensures noise { noise_of result ≡ 8 }
    {
        Taps {
            taps: Prefix::repeat(0, 1),
            noise: Noise::blank(),
        }
    }

    /// The taps held. Tap i goes with the symbol i places back.
    pub fn taps(&self) -> &[i16]
        ensures { result.now ≡ taps_of self.now }
    {
        self.taps.as_slice()
    }

    /// The noise held.
    pub fn noise(&self) -> u32
        ensures { result ≡ noise_of self.now }
    {
        self.noise.value()
    }

    /// Puts other taps and another noise in the place of those held, or refuses and leaves those.
    pub fn load(&mut self, taps: &[i16], noise: i32) -> Result<(), Refusal>
        ensures answer { refused_by result ≡ load_refusal taps.now noise }
        ensures stands { Stands result self.old self.new taps.now noise }
    {
        if taps.is_empty() || Self::MOST < taps.len() {
            return Err(Refusal::Size);
        }
        if !all_in_range(taps) {
            return Err(Refusal::Range);
        }
        let noise = Noise::new(noise)?;
        *self = Taps {
            taps: held(taps),
            noise,
        };
        Ok(())
    }
}

// The taps, which are not too many.
fn held(taps: &[i16]) -> Prefix<i16, 8>
    requires { length taps.now ≤ 8 }
    ensures { items result ≡ taps.now }
{
    Prefix::of(taps, 0)
}

// Whether a tap is in its range.
fn in_range(tap: i16) -> bool
    ensures { result ≡ tap_in_range tap }
{
    (Taps::LOWEST..=Taps::HIGHEST).contains(&tap)
}

// Whether each tap is in its range.
fn all_in_range(taps: &[i16]) -> bool
    ensures { result ≡ each_in_range taps.now }
{
    taps.iter().all(|tap| in_range(*tap))
}
