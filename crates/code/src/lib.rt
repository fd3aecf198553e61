//! The code kind: two masks that pick symbols, each of whose sums gives a coded bit.
#![tactic(auto)]

ghost use Rattle.std.specs.Prelude.{◌^◌, ◌<◌, ◌≤◌};

mod load;
mod price;

/// A memory of one to eight symbols, and two masks. Bit i of a mask stands for the symbol i places back.
// Two masks by name, as a sample has two numbers: an index of a pair would be one number more to check.
#[derive(Clone, Copy)]
pub struct Code {
    memory: usize,
    first: usize,
    second: usize,
    ghost some: { 1 ≤ memory },
    ghost few: { memory ≤ 8 },
    ghost first_within: { first < 2 ^ memory },
    ghost second_within: { second < 2 ^ memory },
}
