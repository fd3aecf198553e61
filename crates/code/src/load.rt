//! Making and loading a code.
ghost use Rattle.std.specs.Prelude.{◌≡◌, ◌≤◌, true, false, pos, MatchResult};
ghost use Rattle.channel.specs.Refusals.{number_of, refused_by};
ghost use Rattle.code.specs.Rule.{mask_in_range, load_refusal};
ghost use Rattle.code.specs.Held.{memory_of, first_mask_of, second_mask_of, Stands};

use crate::Code;
use channel::Refusal;

impl Code {
    /// The greatest memory.
    pub const LONGEST: i32 = 8;

    /// A memory of one symbol, and both masks 0.
    pub fn blank() -> Code
        ensures memory { memory_of result ≡ 1 }
        ensures first { first_mask_of result ≡ 0 }
        ensures second { second_mask_of result ≡ 0 }
    {
        Code {
            memory: 1,
            first: 0,
            second: 0,
        }
    }

    /// The mask that goes with a sample's first number.
    pub fn first_mask(&self) -> usize
        ensures { result ≡ first_mask_of self.now }
    {
        self.first
    }

    /// The mask that goes with a sample's second number.
    pub fn second_mask(&self) -> usize
        ensures { result ≡ second_mask_of self.now }
    {
        self.second
    }

    /// Puts another memory and other masks in the place of those held, or refuses and leaves those.
    pub fn load(&mut self, memory: i32, first: i32, second: i32) -> Result<(), Refusal>
        ensures answer { refused_by result ≡ load_refusal memory first second }
        ensures stands { Stands result self.old self.new memory first second }
    {
        if !(1..=Self::LONGEST).contains(&memory) {
            return Err(Refusal::Size);
        }
        let memory = memory.unsigned_abs() as usize;
        let first = mask(first, memory)?;
        let second = mask(second, memory)?;
        *self = Code {
            memory,
            first,
            second,
        };
        Ok(())
    }
}

// The mask of this value, if it names no symbol past the memory.
fn mask(value: i32, memory: usize) -> Result<usize, Refusal>
    requires { memory ≤ 8 }
    ensures { MatchResult result (λ m. (mask_in_range memory value ≡ true) × (pos m ≡ value)) (λ e. (mask_in_range memory value ≡ false) × (number_of e ≡ 2)) }
{
    if !(0..1 << memory).contains(&value) {
        return Err(Refusal::Range);
    }
    Ok(value.unsigned_abs() as usize)
}
