//! Priors as costs, and the rule that they keep.
ghost use Rattle.std.specs.Prelude.{◌≡◌, ℕ, ◌≤◌, not, ◌==◌, take, drop};
ghost use Rattle.std.specs.List.{list_all, list_any};
ghost use Rattle.cost.specs.declared.Cost.TheVariants.{Eighths};
ghost use Rattle.burst.specs.Places.{prior_at, prior_cost, priors_allowed};

use crate::priors::Priors;
use cost::Cost;

impl Priors {
    /// The number of a barred prior.
    pub const BARRED: u16 = 65_535;

    // The number of a value, 0 past the last.
    fn at(self, value: usize) -> u16
        ensures { result ≡ prior_at self value }
    {
        self.numbers.get(value).copied().unwrap_or(0)
    }

    /// The prior of a value as a cost. A value above 3 has the prior 0.
    pub fn cost(self, value: usize) -> Cost
        ensures value { result ≡ prior_cost self value }
        ensures small { (n : ℕ) → result ≡ Eighths n → n ≤ 65534 }
    {
        let number = self.at(value);
        if number == Self::BARRED {
            Cost::Barred
        } else {
            Cost::Eighths(u32::from(number))
        }
    }

    /// Whether the priors keep their rule for so many symbol values: those past the last are 0, and one at least of the others is not barred.
    pub fn allowed(self, symbols: usize) -> bool
        ensures { result ≡ priors_allowed symbols self }
    {
        unused_are_zero(&self.numbers, symbols) && one_is_open(&self.numbers, symbols)
    }
}

// Whether the numbers past those of the symbols are 0.
fn unused_are_zero(numbers: &[u16], symbols: usize) -> bool
    ensures { result ≡ list_all (λ n. n == 0) (drop symbols numbers.now) }
{
    numbers.iter().skip(symbols).all(|number| *number == 0)
}

// Whether one of the symbols is not barred.
fn one_is_open(numbers: &[u16], symbols: usize) -> bool
    ensures { result ≡ list_any (λ n. not (n == 65535)) (take symbols numbers.now) }
{
    numbers
        .iter()
        .take(symbols)
        .any(|number| *number != Priors::BARRED)
}
