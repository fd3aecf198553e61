//! What a sample costs under a table.
ghost use Rattle.std.specs.Prelude.{◌≡◌, ◌+◌, ◌<◌, length};
ghost use Rattle.channel.specs.Distances.{distance_cost};
ghost use Rattle.table.specs.declared.entry.Entry.TheVariants.{Expected};
ghost use Rattle.table.specs.Entries.{entry_at};
ghost use Rattle.table.specs.Rule.{distance};
ghost use Rattle.table.specs.Held.{entries_of, noise_of, meaning_of};
ghost use Rattle.std.proofs.Common.{rules, arith};

use crate::{Entry, Table};
use channel::{Channel, Noise, Sample, squared_distance};
use cost::Cost;

// The cost of a sum of squares, in eighths. A sum past 64 bits is cut there, which changes no cost.
fn cost_of_sum(noise: Noise, a: u64, b: u64) -> u32
    ensures { result ≡ distance_cost noise.number (a + b) }
{
    noise.cost(a.saturating_add(b))
}

impl Table {
    // The cost of a sample where these numbers are expected, in eighths.
    fn price(&self, sample: Sample, first: i32, second: i32) -> u32
        ensures { result ≡ distance_cost (noise_of self.now) (distance sample (Expected first second)) }
    {
        cost_of_sum(
            self.noise,
            squared_distance(sample.first, first),
            squared_distance(sample.second, second),
        )
    }
}

impl Channel for Table {
    const SYMBOLS: usize = 4;

    ghost symbols = { 4 };

    ghost meaning = { meaning_of };

    ghost lawful = { first_of (Prim.search rules, Prim.grind (arith, Self.row.coded.inj)) };

    ghost kind = { first_of (Prim.search rules, Prim.grind (arith, Self.row.coded.inj)) };

    fn alphabet() -> usize {
        Self::SYMBOLS
    }

    fn memory(&self) -> usize {
        self.memory
    }

    fn takes(&self, sample: Sample) -> bool {
        sample.in_range()
    }

    fn cost(&self, sample: Sample, window: usize) -> Cost {
        if !self.takes(sample) {
            return Cost::Barred;
        }
        match self.entries().get(window) {
            Some(Entry::Expected { first, second }) => {
                Cost::Eighths(self.price(sample, *first, *second))
            }
            _ => Cost::Barred,
        }
    }
}
