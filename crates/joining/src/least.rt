//! The least-cost joining.
ghost use Rattle.std.specs.Prelude.{◌≡◌};
ghost use Rattle.joining.specs.LeastCosts.{least_cost, least_cost_operations, least_cost_worth};
ghost use Rattle.joining.specs.LeastCostsLemmas.{least_cost_laws};
ghost use Rattle.std.proofs.Common.{rules, arith};

use crate::{Joining, LeastCost};
use cost::Cost;

impl LeastCost {
    /// The number that stands for none. A greater sum is cut to it.
    pub const NONE: u32 = u32::MAX;

    /// The element of a number of eighths.
    pub fn new(number: u32) -> LeastCost
        ensures element { result ≡ least_cost number }
        ensures number { result.number ≡ number }
    {
        LeastCost { number }
    }

    /// Its number.
    pub fn number(self) -> u32
        ensures { result ≡ self.number }
    {
        self.number
    }
}

impl Joining for LeastCost {
    ghost operations = { least_cost_operations };

    ghost worth_of = { least_cost_worth };

    ghost laws = { least_cost_laws };

    ghost barred = { first_of (Prim.search rules, Prim.grind (arith, Self.row.coded.inj)) };

    fn none() -> LeastCost {
        LeastCost::new(LeastCost::NONE)
    }

    fn unit() -> LeastCost {
        LeastCost::new(0)
    }

    fn join(self, other: LeastCost) -> LeastCost {
        LeastCost::new(self.number.min(other.number))
    }

    fn follow(self, next: LeastCost) -> LeastCost {
        LeastCost::new(self.number.saturating_add(next.number))
    }

    fn worth(cost: Cost) -> LeastCost {
        match cost {
            Cost::Eighths(number) => LeastCost::new(number),
            Cost::Barred => Self::none(),
        }
    }
}
