//! The first column.
ghost use Rattle.std.specs.Prelude.{◌≡◌, ℕ, ◌≤◌, true, map};
ghost use Rattle.std.specs.List.{range_with_len};
ghost use Rattle.recursions.specs.Forward.{start_cell};
ghost use Rattle.columns.specs.Cells.{cells_of, stored_cell, survivor_fits, CellsWithin, SurvivorsBelow};
ghost use Rattle.columns.specs.Numbers.{Within};

use crate::column::{Cell, Column};
use crate::stored::BARRED;
use std::array;

impl Cell {
    // The cell of a state before any place.
    fn start(state: u8) -> Cell
        ensures cell { stored_cell result ≡ start_cell state }
        ensures within { Within 0 result.cost }
        ensures survivor { survivor_fits result.survivor ≡ true }
    {
        Cell {
            cost: if state == 0 { 0 } else { BARRED },
            history: state,
            survivor: None,
        }
    }
}

impl Column {
    /// Column 0: state 0 costs nothing and the others are barred; each history is the state itself, and there are no survivors.
    pub fn start() -> Column
        ensures cells { (n : ℕ) → n ≤ 16 → cells_of n result ≡ map start_cell (range_with_len 0 n) }
        ensures within { CellsWithin 0 result }
        ensures survivors { SurvivorsBelow result }
    {
        Column {
            cells: array::from_fn(|state| Cell::start(state as u8)),
        }
    }
}
