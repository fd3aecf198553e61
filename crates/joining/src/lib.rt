//! Joinings: what the ways through a burst are worth, side by side and one after another.
#![tactic(auto)]

ghost use Rattle.std.specs.Prelude.{◌≡◌, ◌≤◌};
ghost use Rattle.cost.specs.declared.Cost.{Cost as Costs};
ghost use Rattle.cost.specs.declared.Cost.TheVariants.{Barred};
ghost use Rattle.joining.specs.Laws.{Operations, Laws};

use cost::Cost;

mod admits;
mod counts;
mod least;

/// What ways are worth: join for one way or another, follow for one part of a way and then the next.
pub trait Joining: Copy {
    ghost operations: { Operations Self };

    ghost worth_of: { Costs → Self };

    /// What no way at all is worth: the join of nothing.
    fn none() -> Self
        ensures { result ≡ operations.none };

    /// What a way without parts is worth: the follow of nothing.
    fn unit() -> Self
        ensures { result ≡ operations.unit };

    /// What either way is worth.
    fn join(self, other: Self) -> Self
        ensures { result ≡ operations.join self other };

    /// What this part and then the next are worth.
    fn follow(self, next: Self) -> Self
        ensures { result ≡ operations.follow self next };

    /// What a part of this cost is worth.
    fn worth(cost: Cost) -> Self
        ensures { result ≡ worth_of cost };

    ghost laws: { Laws operations };

    ghost barred: { worth_of Barred ≡ operations.none };
}

/// The least cost of all ways, in eighths. The greatest number stands for none.
#[derive(Clone, Copy, PartialEq, Eq, Debug)]
pub struct LeastCost {
    number: u32,
    ghost fits: { number ≤ 4294967295 },
}

/// Whether there is a way.
#[derive(Clone, Copy, PartialEq, Eq, Debug)]
pub struct Admitted {
    yes: bool,
}

/// How many ways there are, 65,535 if there are more.
#[derive(Clone, Copy, PartialEq, Eq, Debug)]
pub struct Count {
    number: u16,
    ghost fits: { number ≤ 65535 },
}
