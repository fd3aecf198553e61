//! One step back, and where a forward and a backward column meet.
ghost use Rattle.std.specs.Prelude.{◌≡◌, ℕ, ◌+◌, ◌*◌, ◌<◌, ◌≤◌};
ghost use Rattle.columns.specs.Cells.{CellsWithin, CostsWithin};
ghost use Rattle.columns.specs.Numbers.{Within};
ghost use Rattle.columns.specs.Pairs.{onward_sum, least_onward, least_through};
ghost use Rattle.columns.specs.Shapes.{Shapes};
ghost use Rattle.columns.specs.Worked.{Backstepped, Met};

use crate::indices::{filled, least_below};
use crate::section::Section;
use crate::shape::Shape;
use crate::stored::BARRED;
use channel::Channel;

// What a pair has, and what the later column has for the next state.
fn onward(shape: Shape, numbers: &[u32; 64], later: &[u32; 16], pair: usize) -> u32
    requires { pair < 64 }
    ensures { result ≡ onward_sum shape.states numbers.now later.now pair }
{
    numbers[pair].saturating_add(later[pair % shape.states])
}

// The least over the symbols of a state: what the symbol weighs, and what the later column has for the next state.
fn least_onward(shape: Shape, weights: &[u32; 64], later: &[u32; 16], state: usize) -> u32
    requires { state < shape.states }
    ensures { result ≡ least_onward shape.symbols shape.states weights.now later.now state }
{
    least_below(shape.symbols, |symbol| {
        onward(shape, weights, later, symbol + shape.symbols * state)
    })
}

// The least over the states of what it costs to come by them and the symbol, and to go on from there.
fn least_through(shape: Shape, sums: &[u32; 64], later: &[u32; 16], symbol: usize) -> u32
    requires { symbol < shape.symbols }
    ensures { result ≡ least_through shape.symbols shape.states sums.now later.now symbol }
{
    least_below(shape.states, |state| {
        onward(shape, sums, later, symbol + shape.symbols * state)
    })
}

impl<C: Channel> Section<'_, C> {
    /// The backward column of the place, worked from the one after it with the forward column's histories.
    pub fn backstep(&self, later: &[u32; 16]) -> [u32; 16]
        ensures backstepped { (q b : ℕ) → Shapes (C.meaning self.now.channel.now) q self.now.shape → CostsWithin b later.now → b ≤ 40000000 → Backstepped (C.meaning self.now.channel.now) q self.now.place.now self.now.column.now later.now result }
        ensures within { (b : ℕ) → CostsWithin b later.now → b ≤ 40000000 → CostsWithin (b + 131069) result }
    {
        let weights = self.weigh();
        filled(self.shape.states, BARRED, |state| {
            least_onward(self.shape, &weights, later, state)
        })
    }

    /// What a symbol costs at the place, where its forward column meets the backward column after it. Barred for what is no symbol.
    pub fn meeting(&self, later: &[u32; 16], symbol: usize) -> u32
        ensures met { (q b : ℕ) → Shapes (C.meaning self.now.channel.now) q self.now.shape → CellsWithin b self.now.column.now → CostsWithin b later.now → b ≤ 20000000 → symbol < self.now.shape.symbols → Met (C.meaning self.now.channel.now) q self.now.place.now self.now.column.now later.now symbol result }
        ensures within { (b : ℕ) → CellsWithin b self.now.column.now → CostsWithin b later.now → b ≤ 20000000 → Within (b + 131069 + b) result }
    {
        if self.shape.symbols <= symbol {
            return BARRED;
        }
        let sums = self.extend(&self.weigh());
        least_through(self.shape, &sums, later, symbol)
    }
}
