//! The count joining.
ghost use Rattle.std.specs.Prelude.{◌≡◌};
ghost use Rattle.joining.specs.Counting.{count_of, count_operations, count_worth};
ghost use Rattle.joining.specs.CountingLemmas.{count_laws};
ghost use Rattle.std.proofs.Common.{rules, arith};

use crate::{Count, Joining};
use cost::Cost;

impl Count {
    /// The greatest number. A greater sum or product is cut to it.
    pub const MOST: u16 = u16::MAX;

    /// The element of a number of ways.
    pub fn new(number: u16) -> Count
        ensures element { result ≡ count_of number }
        ensures number { result.number ≡ number }
    {
        Count { number }
    }

    /// Its number.
    pub fn number(self) -> u16
        ensures { result ≡ self.number }
    {
        self.number
    }
}

impl Joining for Count {
    ghost operations = { count_operations };

    ghost worth_of = { count_worth };

    ghost laws = { count_laws };

    ghost barred = { first_of (Prim.search rules, Prim.grind (arith, Self.row.coded.inj)) };

    fn none() -> Count {
        Count::new(0)
    }

    fn unit() -> Count {
        Count::new(1)
    }

    fn join(self, other: Count) -> Count {
        Count::new(self.number.saturating_add(other.number))
    }

    fn follow(self, next: Count) -> Count {
        Count::new(self.number.saturating_mul(next.number))
    }

    fn worth(cost: Cost) -> Count {
        match cost {
            Cost::Eighths(_) => Self::unit(),
            Cost::Barred => Self::none(),
        }
    }
}
