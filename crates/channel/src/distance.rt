//! The squared distance between a sample's number and an expected one.
ghost use Rattle.std.specs.Prelude.{◌≡◌};
ghost use Rattle.channel.specs.Distances.{square};

/// The square of the difference of two numbers.
pub fn squared_distance(a: i32, b: i32) -> u64
    ensures { result ≡ square a b }
{
    let d = u64::from(a.abs_diff(b));
    d * d
}
