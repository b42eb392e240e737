ghost use Rattle.std.specs.Prelude.{◌≡◌, ◌↔◌, IsTrue, Some};
ghost use Rattle.mapf_grid.specs.Grid.{IsRightOrBelow, IsBeside, Next};

use crate::{Cell, Map};

impl Map {
    /// Whether an agent may be on `to` one time step after it was on `from`: both cells are free, and they are
    /// equal or lie side by side.
    pub fn is_step(&self, from: Cell, to: Cell) -> bool
        ensures { IsTrue result ↔ Next self.now from to }
    {
        self.is_free(from) && self.is_free(to) && (from == to || self.is_beside(from, to))
    }

    /// Whether one number is that of a cell above, at the left, at the right or below the other, the grid's rows going on behind
    /// the last one.
    fn is_beside(&self, one: Cell, other: Cell) -> bool
        ensures { IsTrue result ↔ IsBeside self.now one other }
    {
        if one < other {
            self.is_right_or_below(one, other)
        } else {
            self.is_right_or_below(other, one)
        }
    }

    /// Whether the second cell is at the right of the first in the same row, or below it.
    fn is_right_or_below(&self, first: Cell, second: Cell) -> bool
        ensures { IsTrue result ↔ IsRightOrBelow self.now first second }
    {
        is_cell(self.cell_above(second), first) || is_cell(self.cell_at_left(second), first)
    }
}

/// Whether there is a cell, and it is the given one.
fn is_cell(found: Option<Cell>, cell: Cell) -> bool
    ensures { IsTrue result ↔ (found ≡ Some cell) }
{
    match found {
        Some(found) => found == cell,
        None => false,
    }
}
