//! Costs as stored numbers.
ghost use Rattle.std.specs.Prelude.{◌≡◌};
ghost use Rattle.columns.specs.Numbers.{as_cost};

use cost::Cost;

// The number that stands for barred. It is no `Cost`, for the greatest number needs no branch: sums stop there, and any other is less.
pub(crate) const BARRED: u32 = u32::MAX;

/// The cost that a stored number stands for.
pub fn as_cost(number: u32) -> Cost
    ensures { result ≡ as_cost number }
{
    if number == BARRED {
        Cost::Barred
    } else {
        Cost::Eighths(number)
    }
}
