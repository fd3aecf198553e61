//! What a sample costs under a code.
ghost use Rattle.std.specs.Prelude.{◌≡◌, ◌≤◌, true, unsigned_abs, refl};
ghost use Rattle.channel.specs.Samples.{in_range};
ghost use Rattle.code.specs.Rule.{parity, bit_of_mask, cost_of_bit};
ghost use Rattle.code.specs.Parity.{CodedBitIsTheParity};
ghost use Rattle.code.specs.Held.{first_mask_of, second_mask_of, meaning_of};
ghost use Rattle.std.proofs.Common.{rules, inl, arith};
ghost use Rattle.channel.proofs.Priced.{priced};
ghost use Rattle.code.specs.Small.{cheap};

use crate::Code;
use channel::{Channel, Sample};
use cost::Cost;

// 1 if the number of ones is odd, otherwise 0.
fn parity(bits: usize) -> u32
    ensures { result ≡ parity bits }
{
    bits.count_ones() % 2
}

// The coded bit of a mask under a window.
fn coded_bit(mask: usize, window: usize) -> u32
    ensures value { result ≡ bit_of_mask mask window }
    ensures parity { CodedBitIsTheParity }
{
    parity(mask & window)
}

// What a coded bit costs beside its sample number: the number where the signs disagree, otherwise nothing.
fn bit_cost(number: i32, bit: u32) -> u32
    ensures value { result ≡ cost_of_bit number bit }
    ensures small { result ≤ unsigned_abs number }
{
    if bit == 0 {
        number.max(0).unsigned_abs()
    } else {
        number.min(0).unsigned_abs()
    }
}

impl Code {
    /// The coded bit of the first mask under a window.
    pub fn first_bit(&self, window: usize) -> u32
        ensures value { result ≡ bit_of_mask (first_mask_of self.now) window }
        ensures parity { CodedBitIsTheParity }
    {
        coded_bit(self.first, window)
    }

    /// The coded bit of the second mask under a window.
    pub fn second_bit(&self, window: usize) -> u32
        ensures value { result ≡ bit_of_mask (second_mask_of self.now) window }
        ensures parity { CodedBitIsTheParity }
    {
        coded_bit(self.second, window)
    }

    // The cost of a sample in range, in eighths.
    fn price(&self, sample: Sample, window: usize) -> u32
        requires { in_range sample ≡ true }
        ensures { result ≡ (meaning_of self.now).price sample window }
    {
        bit_cost(sample.first, self.first_bit(window))
            + bit_cost(sample.second, self.second_bit(window))
    }
}

impl Channel for Code {
    const SYMBOLS: usize = 2;

    ghost symbols = { 2 };

    ghost meaning = { meaning_of };

    ghost lawful = { λ c.
        record {
          two_or_four = inl refl;
          remembers = Prim.search rules;
          few_windows = Prim.search rules;
          bounded = λ z w n is.
              let told = priced (meaning_of c) z w n is in
              omega (arith, cheap z (bit_of_mask (first_mask_of c) w) (bit_of_mask (second_mask_of c) w) told.0, told.1);
        } };

    ghost kind = { first_of (Prim.search rules, Prim.grind (arith, Self.row.coded.inj)) };

    fn alphabet() -> usize {
        Self::SYMBOLS
    }

    fn memory(&self) -> usize {
        self.memory
    }

    // A shift in place of a power: it is asked with every price.
    fn windows(&self) -> usize {
        1 << self.memory
    }

    fn takes(&self, sample: Sample) -> bool {
        sample.in_range()
    }

    fn cost(&self, sample: Sample, window: usize) -> Cost {
        if self.takes(sample) && window < self.windows() {
            Cost::Eighths(self.price(sample, window))
        } else {
            Cost::Barred
        }
    }
}
