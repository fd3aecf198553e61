//! Values with a space between each and the next.
ghost use Rattle.std.specs.Prelude.{◌≡◌, ℕ, List, ◌++◌, codes, Some, refl};
ghost use Rattle.std.specs.Fmt.{WritesOnOk};
ghost use Rattle.std.specs.List.{flat_map, join_by};
ghost use Rattle.cost.specs.Leans.{lean_text};
ghost use Rattle.cost.specs.Shown.{cost_text};

use cost::{Cost, Lean};
use std::fmt;

/// A value that is always printed as its text.
pub(crate) trait Shown: fmt::Display {
    ghost text: { Self → List ℕ };

    ghost told: { (x : Self) → Self.Display.output x ≡ Some (text x) };
}

impl Shown for Cost {
    ghost text = { cost_text };

    ghost told = { λ x. refl };
}

impl Shown for Lean {
    ghost text = { lean_text };

    ghost told = { λ x. refl };
}

/// Prints values with a space between each and the next.
#[derive(Drop)]
pub(crate) struct Spaced<'a, T>(pub(crate) &'a [T]);

// Prints values, each after a space.
fn write_after_spaces<T: Shown, W: fmt::Write>(
    values: &[T],
    f: &mut fmt::Formatter<W>,
) -> fmt::Result
    ensures { WritesOnOk W.write_str_gives f.old result (flat_map (λ x. codes " " ++ T.text x) values.now) f.new }
{
    for value in values {
        write!(f, " {value}")?;
    }
    Ok(())
}

impl<T: Shown> fmt::Display for Spaced<'_, T> {
    ghost output = { λ s. Some (join_by T.text (codes " ") s.0.now) };

    fn fmt<W: fmt::Write>(&self, f: &mut fmt::Formatter<W>) -> fmt::Result {
        let Some((first, rest)) = self.0.split_first() else {
            return Ok(());
        };
        write!(f, "{first}")?;
        write_after_spaces(rest, f)
    }
}
