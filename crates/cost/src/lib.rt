//! A cost: a whole number of eighths, or barred.
#![tactic(auto)]

ghost use Rattle.std.specs.Prelude.{◌≡◌, ◌⊎◌, MatchOption};
ghost use Rattle.cost.specs.Arithmetic.{plus, least, barred, AtMost, Fits32};
ghost use Rattle.cost.specs.Laws.{LeastIsAMinimum, PlusIsASum};

mod lean;
mod show;

pub use lean::{Lean, in_decimal};

/// What a choice of symbols costs. Barred exceeds every number, which an `Option` would have as its least value.
#[derive(Clone, Copy, PartialEq, Eq, PartialOrd, Ord, Debug)]
pub enum Cost {
    Eighths(u32),
    Barred,
}

impl Cost {
    /// The lesser of two costs.
    pub fn least(self, other: Cost) -> Cost
        ensures value { result ≡ least self other }
        ensures below { AtMost result self × AtMost result other }
        ensures one { (result ≡ self) ⊎ (result ≡ other) }
        ensures laws { LeastIsAMinimum }
    {
        self.min(other)
    }

    /// The sum of two costs, barred if either is. None if both are numbers and their sum exceeds 32 bits.
    pub fn checked_plus(self, other: Cost) -> Option<Cost>
        ensures value { MatchOption result (Fits32 (plus self other) → ⊥) (λ s. (s ≡ plus self other) × Fits32 s) }
        ensures laws { PlusIsASum }
    {
        match (self, other) {
            (Cost::Eighths(m), Cost::Eighths(n)) => m.checked_add(n).map(Cost::Eighths),
            _ => Some(Cost::Barred),
        }
    }

    /// Whether no number of eighths is enough.
    pub fn is_barred(self) -> bool
        ensures { result ≡ barred self }
    {
        self == Cost::Barred
    }
}
