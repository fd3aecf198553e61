//! What a channel is, and what its kinds share: samples, the noise, the refusals of loading.
#![tactic(auto)]

ghost use Rattle.std.specs.Prelude.{◌≡◌, ℕ};
ghost use Rattle.channel.specs.Meaning.{Meaning, Lawful, windows, taken, cost_of};

use cost::Cost;

mod distance;
mod noise;
mod refusal;
mod sample;

pub use distance::squared_distance;
pub use noise::Noise;
pub use refusal::Refusal;
pub use sample::Sample;

/// A channel: what each sample costs under each window of symbols.
pub trait Channel {
    /// The number of symbol values, 2 or 4.
    const SYMBOLS: usize;

    ghost symbols: { ℕ };

    ghost meaning: { Self → Meaning };

    /// The number of symbol values.
    fn alphabet() -> usize
        ensures { result ≡ symbols };

    /// How many symbols a sample depends on, its own among them.
    fn memory(&self) -> usize
        ensures { result ≡ (meaning self.now).memory };

    /// The number of windows: one for each choice of the symbols that a sample depends on.
    fn windows(&self) -> usize
        ensures { result ≡ windows (meaning self.now) }
    {
        Self::alphabet().pow(self.memory() as u32)
    }

    /// Whether the channel takes the sample. It takes none that is out of range.
    fn takes(&self, sample: Sample) -> bool
        ensures { result ≡ taken (meaning self.now) sample };

    /// The cost of a sample under a window. Barred for a sample that is not taken, and past the last window.
    // No default, though two kinds have the same body: the price of a taken sample would become a method that anyone may ask of any sample.
    fn cost(&self, sample: Sample, window: usize) -> Cost
        ensures { result ≡ cost_of (meaning self.now) sample window };

    ghost lawful: { (c : Self) → Lawful (meaning c) };

    ghost kind: { (c : Self) → (meaning c).symbols ≡ symbols };
}
