//! Why a call on places is refused.
ghost use Rattle.std.specs.Prelude.{◌≡◌};
ghost use Rattle.burst.specs.Refusals.{number_of};

/// Why a call on places is refused. Of two reasons the one with the smaller number is named.
#[derive(Clone, Copy, PartialEq, Eq, Debug)]
pub enum Refusal {
    /// 128 places are held, or more than 128 are handed in.
    TooMany = 3,
    /// A sample is out of range or not taken.
    NotTaken = 4,
    /// Priors break their rule, or the value to pin is barred.
    BadPriors = 5,
    /// There is no such place, or more places are to be cut than there are.
    NoPlace = 6,
    /// The depth is not allowed.
    BadDepth = 7,
    /// The value is not one of the symbols.
    NoValue = 8,
    /// Columns are stale: the receiver is to be settled first.
    Stale = 9,
    /// There is no best.
    NoBest = 10,
    /// A list is too short.
    TooShort = 11,
}

impl Refusal {
    /// The number by which faults name the refusal.
    pub fn number(self) -> u8
        ensures { result ≡ number_of self }
    {
        self as u8
    }
}
