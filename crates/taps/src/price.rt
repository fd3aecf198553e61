//! What a sample costs under taps.
ghost use Rattle.std.specs.Prelude.{◌≡◌, ◌<◌, ◌≤◌, length, unsigned_abs};
ghost use Rattle.channel.specs.Windows.{symbol_at};
ghost use Rattle.taps.specs.Rule.{symbol_times, expected};
ghost use Rattle.taps.specs.Echo.{ExpectedIsTheEcho};
ghost use Rattle.taps.specs.Held.{taps_of, meaning_of};
ghost use Rattle.std.proofs.Common.{rules, arith};

use crate::Taps;
use channel::{Channel, Sample, squared_distance};
use cost::Cost;

// A tap times its symbol, where 0 counts as -1 and 1 as +1.
fn times_symbol(tap: i16, symbol: usize) -> i32
    ensures value { result ≡ symbol_times tap symbol }
    ensures small { unsigned_abs result ≤ 32768 }
{
    let tap = i32::from(tap);
    if symbol == 0 { -tap } else { tap }
}

// The symbol that stands some places back in a window.
fn symbol_at(window: usize, back: usize) -> usize
    requires { back < 8 }
    ensures { result ≡ symbol_at 2 window back }
{
    (window >> back) % 2
}

// The sum of each tap times the symbol as many places back.
fn sum_of_taps(taps: &[i16], window: usize) -> i32
    requires { length taps.now ≤ 8 }
    ensures value { result ≡ expected taps.now window }
    ensures echo { ExpectedIsTheEcho }
{
    let mut sum = 0;
    for (i, tap) in taps.iter().enumerate() {
        sum += times_symbol(*tap, symbol_at(window, i));
    }
    sum
}

impl Taps {
    /// The number that a sample has under a window if there is no noise. Of a window past the last, as many lowest digits count as there are taps.
    pub fn expected(&self, window: usize) -> i32
        ensures value { result ≡ expected (taps_of self.now) window }
        ensures echo { ExpectedIsTheEcho }
    {
        sum_of_taps(self.taps(), window)
    }

    // The cost of a sample that is taken, in eighths.
    fn price(&self, sample: Sample, window: usize) -> u32
        ensures { result ≡ (meaning_of self.now).price sample window }
    {
        self.noise
            .cost(squared_distance(sample.first, self.expected(window)))
    }
}

impl Channel for Taps {
    const SYMBOLS: usize = 2;

    ghost symbols = { 2 };

    ghost meaning = { meaning_of };

    ghost lawful = { first_of (Prim.search rules, Prim.grind (arith, Self.row.coded.inj)) };

    ghost kind = { first_of (Prim.search rules, Prim.grind (arith, Self.row.coded.inj)) };

    fn alphabet() -> usize {
        Self::SYMBOLS
    }

    fn memory(&self) -> usize {
        self.taps().len()
    }

    // A shift in place of a power: it is asked with every price.
    fn windows(&self) -> usize {
        1 << self.memory()
    }

    fn takes(&self, sample: Sample) -> bool {
        sample.in_range() && sample.second == 0
    }

    fn cost(&self, sample: Sample, window: usize) -> Cost {
        if self.takes(sample) && window < self.windows() {
            Cost::Eighths(self.price(sample, window))
        } else {
            Cost::Barred
        }
    }
}
