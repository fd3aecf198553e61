//! The line of a place.
ghost use Rattle.std.specs.Prelude.{Some};
ghost use Rattle.report.specs.Shown.{costs_text, leans_text, text_read};

use crate::spaced::Spaced;
use cost::{Cost, Lean};
use std::fmt;

/// The costs of two or four values, from 0 on.
// No slice: that would print one cost, or five, which no line of a place has.
#[derive(Clone, Copy)]
pub enum Costs {
    Two(Cost, Cost),
    Four(Cost, Cost, Cost, Cost),
}

/// The leans of two or four values, from 1 on.
// No slice, likewise.
#[derive(Clone, Copy)]
pub enum Leans {
    Two(Lean),
    Four(Lean, Lean, Lean),
}

/// What is printed of a place: its number, the symbol shown, and the costs and leans of its values.
#[derive(Clone, Copy)]
pub struct Read {
    pub at: usize,
    pub shown: u8,
    pub costs: Costs,
    pub leans: Leans,
}

impl fmt::Display for Costs {
    ghost output = { λ v. Some (costs_text v) };

    fn fmt<W: fmt::Write>(&self, f: &mut fmt::Formatter<W>) -> fmt::Result {
        match *self {
            Costs::Two(a, b) => Spaced(&[a, b]).fmt(f),
            Costs::Four(a, b, c, d) => Spaced(&[a, b, c, d]).fmt(f),
        }
    }
}

impl fmt::Display for Leans {
    ghost output = { λ v. Some (leans_text v) };

    fn fmt<W: fmt::Write>(&self, f: &mut fmt::Formatter<W>) -> fmt::Result {
        match *self {
            Leans::Two(a) => Spaced(&[a]).fmt(f),
            Leans::Four(a, b, c) => Spaced(&[a, b, c]).fmt(f),
        }
    }
}

impl fmt::Display for Read {
    ghost output = { λ r. Some (text_read r) };

    fn fmt<W: fmt::Write>(&self, f: &mut fmt::Formatter<W>) -> fmt::Result {
        let at = self.at;
        let shown = self.shown;
        let costs = self.costs;
        let leans = self.leans;
        write!(
            f,
            "(read (at {at}) (shown {shown}) (costs {costs}) (lean {leans}))"
        )
    }
}
