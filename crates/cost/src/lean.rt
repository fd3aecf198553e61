//! A lean: how much more the value 0 costs than another.
ghost use Rattle.std.specs.Prelude.{◌≡◌, Some};
ghost use Rattle.cost.specs.Leans.{lean_of, lean_text, whole, thousandths, LeansInDecimal};

use crate::Cost;
use std::fmt;

/// The cost of the value 0 minus that of another. It is sure if only the first is barred, never if only the second is, and neither if both are.
#[derive(Clone, Copy, PartialEq, Eq, Debug)]
pub enum Lean {
    Eighths(i64),
    Sure,
    Never,
    Neither,
}

impl Cost {
    /// This cost minus another.
    pub fn minus(self, other: Cost) -> Lean
        ensures { result ≡ lean_of self other }
    {
        match (self, other) {
            (Cost::Eighths(m), Cost::Eighths(n)) => Lean::Eighths(i64::from(m) - i64::from(n)),
            (Cost::Barred, Cost::Eighths(_)) => Lean::Sure,
            (Cost::Eighths(_), Cost::Barred) => Lean::Never,
            (Cost::Barred, Cost::Barred) => Lean::Neither,
        }
    }
}

/// The whole part of so many eighths, and the thousandths that are left.
pub fn in_decimal(eighths: u64) -> (u64, u64)
    ensures whole { result.0 ≡ whole eighths }
    ensures rest { result.1 ≡ thousandths eighths }
    ensures laws { LeansInDecimal }
{
    (eighths / 8, left_over(eighths))
}

// The thousandths that are left of so many eighths.
fn left_over(eighths: u64) -> u64
    ensures value { result ≡ thousandths eighths }
    ensures laws { LeansInDecimal }
{
    eighths % 8 * 125
}

impl fmt::Display for Lean {
    ghost output = { λ l. Some (lean_text l) };

    fn fmt<W: fmt::Write>(&self, f: &mut fmt::Formatter<W>) -> fmt::Result {
        match self {
            Lean::Eighths(eighths) => {
                let sign = if *eighths < 0 { "-" } else { "" };
                let (whole, rest) = in_decimal(eighths.unsigned_abs());
                write!(f, "{sign}{whole}.{rest:03}")
            }
            Lean::Sure => write!(f, "sure"),
            Lean::Never => write!(f, "never"),
            Lean::Neither => write!(f, "neither"),
        }
    }
}
