//! Why a channel is not loaded.
ghost use Rattle.std.specs.Prelude.{◌≡◌};
ghost use Rattle.channel.specs.Refusals.{number_of};

/// Why a channel is not loaded. Of two reasons the one with the smaller number is named.
#[derive(Clone, Copy, PartialEq, Eq, Debug)]
pub enum Refusal {
    /// The number of taps or entries, or the memory, is not allowed.
    Size = 1,
    /// A tap, an entry, the noise or a mask is out of its range.
    Range = 2,
}

impl Refusal {
    /// The number by which faults name the refusal.
    pub fn number(self) -> u8
        ensures { result ≡ number_of self }
    {
        self as u8
    }
}
