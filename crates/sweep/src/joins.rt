//! The join of ways.
ghost use Rattle.std.specs.Prelude.{ℕ, ◌<◌};
ghost use Rattle.sweep.specs.Joins.{JoinsBelow};

use joining::Joining;

/// The join of what a function gives for each number below n.
#[tactic(auto, using(crate::proofs::Joined::joins_start, crate::proofs::Joined::joins_more))]
pub(crate) fn join_below<J: Joining, F: Fn(usize) -> J>(n: usize, way: F) -> J
    requires { (i : ℕ) → i < n → F.pre way i }
    ensures { JoinsBelow J.operations n (λ i x. F.post way i x) result }
{
    let mut ways = J::none();
    for i in 0..n {
        ways = ways.join(way(i));
    }
    ways
}
