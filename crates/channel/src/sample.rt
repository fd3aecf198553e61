//! A sample: the two numbers that the radio board hands over for a place.
ghost use Rattle.std.specs.Prelude.{◌≡◌};
ghost use Rattle.channel.specs.Samples.{in_range};

/// Two numbers, each from -2048 to 2047 if the sample is in range.
#[derive(Clone, Copy, PartialEq, Eq, Debug)]
pub struct Sample {
    pub first: i32,
    pub second: i32,
}

impl Sample {
    /// The least number of a sample.
    pub const LOWEST: i32 = -2048;
    /// The greatest number of a sample.
    pub const HIGHEST: i32 = 2047;

    /// Whether both numbers are in range.
    pub fn in_range(self) -> bool
        ensures { result ≡ in_range self }
    {
        let range = Self::LOWEST..=Self::HIGHEST;
        range.contains(&self.first) && range.contains(&self.second)
    }
}
