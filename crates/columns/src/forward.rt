//! One step forward.
ghost use Rattle.std.specs.Prelude.{◌≡◌, ℕ, ◌+◌, ◌/◌, ◌<◌, ◌≤◌, slice_index};
ghost use Rattle.columns.specs.Arrivals.{Picked, Entered};
ghost use Rattle.columns.specs.Cells.{CellsWithin, SurvivorsBelow};
ghost use Rattle.columns.specs.Pairs.{pairs, pair_sum, Extended};
ghost use Rattle.columns.specs.Shapes.{Shapes};
ghost use Rattle.columns.specs.Worked.{Stepped};

use crate::column::{Cell, Column, Survivor};
use crate::indices::filled;
use crate::section::Section;
use crate::shape::Shape;
use crate::stored::BARRED;
use channel::Channel;

// The first pair into a state that has the least sum. A loop: `min_by_key` answers an Option that is never none here, and says only turn by turn that it takes the first.
fn pick(shape: Shape, sums: &[u32; 64], state: usize) -> usize
    requires { state < shape.states }
    ensures { Picked shape.states sums.now state shape.symbols result }
{
    let mut best = state;
    for way in 1..shape.symbols {
        let pair = state + shape.states * way;
        if sums[pair] < sums[best] {
            best = pair;
        }
    }
    best
}

impl Cell {
    // The cell of a state that nothing leads to.
    fn barred(state: u8) -> Cell
        ensures { result ≡ record { cost = 4294967295; history = state; survivor = None } }
    {
        Cell {
            cost: BARRED,
            history: state,
            survivor: None,
        }
    }
}

impl<C: Channel> Section<'_, C> {
    // What it costs to come by a pair: the cost of its state, and its weight.
    fn come_by(&self, weights: &[u32; 64], pair: usize) -> u32
        requires { pair < pairs self.now.shape }
        ensures { result ≡ pair_sum self.now.shape.symbols self.now.column.now weights.now pair }
    {
        let from = self.column.cells[pair / self.shape.symbols];
        from.cost.saturating_add(weights[pair])
    }

    // What it costs to come by each pair.
    pub(crate) fn extend(&self, weights: &[u32; 64]) -> [u32; 64]
        ensures { Extended self.now.shape self.now.column.now weights.now result }
    {
        filled(self.pairs(), BARRED, |pair| self.come_by(weights, pair))
    }

    // How a state is entered: by the first pair with the least sum, if that is not barred.
    fn arrive(&self, sums: &[u32; 64], state: usize) -> Cell
        requires { state < self.now.shape.states }
        ensures { Entered self.now.shape self.now.column.now sums.now state result }
    {
        let pair = pick(self.shape, sums, state);
        let cost = sums[pair];
        if cost == BARRED {
            return Cell::barred(state as u8);
        }
        let from = pair / self.shape.symbols;
        let symbol = pair % self.shape.symbols;
        let history = symbol + self.shape.symbols * usize::from(self.column.cells[from].history);
        Cell {
            cost,
            history: (history % self.shape.histories) as u8,
            survivor: Some(Survivor {
                state: from as u8,
                symbol: symbol as u8,
            }),
        }
    }

    /// The column after the place, worked from the column before it.
    pub fn step(&self) -> Column
        ensures stepped { (q b : ℕ) → Shapes (C.meaning self.now.channel.now) q self.now.shape → CellsWithin b self.now.column.now → b ≤ 40000000 → Stepped (C.meaning self.now.channel.now) q self.now.place.now self.now.column.now result }
        ensures within { (b : ℕ) → CellsWithin b self.now.column.now → b ≤ 40000000 → CellsWithin (b + 131069) result }
        ensures survivors { SurvivorsBelow result }
    {
        let sums = self.extend(&self.weigh());
        Column {
            cells: filled(
                self.shape.states,
                Cell::barred(0),
                |state| self.arrive(&sums, state),
            ),
        }
    }
}
