//! The text of a cost.
ghost use Rattle.std.specs.Prelude.{Some};
ghost use Rattle.cost.specs.Shown.{cost_text};

use crate::Cost;
use std::fmt;

impl fmt::Display for Cost {
    ghost output = { λ c. Some (cost_text c) };

    fn fmt<W: fmt::Write>(&self, f: &mut fmt::Formatter<W>) -> fmt::Result {
        match self {
            Cost::Eighths(n) => write!(f, "{n}"),
            Cost::Barred => write!(f, "barred"),
        }
    }
}
