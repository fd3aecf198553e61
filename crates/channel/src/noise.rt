//! The noise by which squared distances are divided.
ghost use Rattle.std.specs.Prelude.{◌≡◌, ◌≤◌, true, false, pos, MatchResult};
ghost use Rattle.channel.specs.Distances.{in_noise_range, distance_cost};
ghost use Rattle.channel.specs.Refusals.{number_of};

use crate::refusal::Refusal;

/// A noise, from 1 to 1,000,000.
#[derive(Clone, Copy, PartialEq, Eq, Debug)]
pub struct Noise {
    number: u32,
    ghost some: { 1 ≤ number },
    ghost limited: { number ≤ 1000000 },
}

impl Noise {
    /// The least noise.
    pub const LEAST: i32 = 1;
    /// The greatest noise.
    pub const GREATEST: i32 = 1_000_000;
    /// The greatest cost of a distance, in eighths.
    pub const CAP: u64 = 65_535;

    /// The noise of a blank channel, 8.
    pub fn blank() -> Noise
        ensures { result.number ≡ 8 }
    {
        Noise { number: 8 }
    }

    /// The noise of this value, if it is in range.
    pub fn new(value: i32) -> Result<Noise, Refusal>
        ensures { MatchResult result (λ v. (in_noise_range value ≡ true) × (pos v.number ≡ value)) (λ e. (in_noise_range value ≡ false) × (number_of e ≡ 2)) }
    {
        if !(Self::LEAST..=Self::GREATEST).contains(&value) {
            return Err(Refusal::Range);
        }
        Ok(Noise {
            number: value.unsigned_abs(),
        })
    }

    /// Its number.
    pub fn value(self) -> u32
        ensures { result ≡ self.number }
    {
        self.number
    }

    /// The cost of a squared distance, in eighths.
    pub fn cost(self, squared: u64) -> u32
        ensures { result ≡ distance_cost self.number squared }
    {
        (squared.saturating_mul(8) / u64::from(self.value())).min(Self::CAP) as u32
    }
}
