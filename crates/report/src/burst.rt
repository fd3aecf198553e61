//! The line of a burst.
ghost use Rattle.std.specs.Prelude.{Some};
ghost use Rattle.report.specs.Shown.{best_text, burst_text};

use std::fmt;

/// What is printed of a whole burst: how many places it has, its best in eighths, if it has one, and how many columns were worked.
#[derive(Clone, Copy)]
pub struct Burst {
    pub places: usize,
    pub best: Option<u32>,
    pub columns: usize,
}

/// Prints the best of a burst, in eighths, or that it has none.
#[derive(Clone, Copy)]
pub struct Best(pub Option<u32>);

impl fmt::Display for Best {
    ghost output = { λ b. Some (best_text b.0) };

    fn fmt<W: fmt::Write>(&self, f: &mut fmt::Formatter<W>) -> fmt::Result {
        match self.0 {
            Some(best) => write!(f, "(best {best})"),
            None => write!(f, "(dead)"),
        }
    }
}

impl fmt::Display for Burst {
    ghost output = { λ b. Some (burst_text b) };

    fn fmt<W: fmt::Write>(&self, f: &mut fmt::Formatter<W>) -> fmt::Result {
        let places = self.places;
        let best = Best(self.best);
        let columns = self.columns;
        write!(f, "(burst (places {places}) {best} (columns {columns}))")
    }
}
