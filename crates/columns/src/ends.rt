//! The least cost of a column, and the first state that has it.
ghost use Rattle.std.specs.Prelude.{◌≡◌, nat_eq};
ghost use Rattle.recursions.specs.Firsts.{first_under};
ghost use Rattle.columns.specs.Cells.{entry_at};
ghost use Rattle.columns.specs.Pairs.{min_below};

use crate::column::Column;
use crate::indices::least_below;
use crate::shape::Shape;

impl Column {
    /// The least of the costs of the states.
    pub fn least(&self, shape: Shape) -> u32
        ensures { result ≡ min_below shape.states (λ s. (entry_at self.now s).cost) }
    {
        least_below(shape.states, |state| self.cells[state].cost)
    }

    /// The first state that has a cost.
    pub fn first_with(&self, shape: Shape, cost: u32) -> Option<usize>
        ensures { result ≡ first_under shape.states (λ s. nat_eq (entry_at self.now s).cost cost) }
    {
        (0..shape.states).find(|state| self.cells[*state].cost == cost)
    }
}
