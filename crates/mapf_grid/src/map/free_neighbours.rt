ghost use Rattle.std.specs.Prelude.{◌≡◌, ℕ, ◌+◌, ◌/◌, ◌<◌, ◌↔◌, Some};

use super::Map;
use crate::Cell;

impl Map {
    ghost use Rattle.mapf_grid.specs.Grid.{cells, IsFree};

    /// The free cell above a cell, if there is one.
    pub fn free_above(&self, cell: Cell) -> Option<Cell>
        ensures { (v : ℕ) → (result ≡ Some v) ↔ ((cell ≡ v + self.now.width) × IsFree self.now v) }
    {
        self.if_free(self.cell_above(cell))
    }

    /// The free cell at the left of a cell in the same row, if there is one.
    pub fn free_at_left(&self, cell: Cell) -> Option<Cell>
        ensures { (v : ℕ) → (result ≡ Some v)
            ↔ (((cell ≡ v + 1) × (cell / self.now.width ≡ v / self.now.width)) × IsFree self.now v) }
    {
        self.if_free(self.cell_at_left(cell))
    }

    /// The free cell at the right of a cell of the map in the same row, if there is one.
    pub fn free_at_right(&self, cell: Cell) -> Option<Cell>
        requires { cell < cells self.now }
        ensures { (v : ℕ) → (result ≡ Some v)
            ↔ (((v ≡ cell + 1) × (v / self.now.width ≡ cell / self.now.width)) × IsFree self.now v) }
    {
        self.if_free(self.cell_at_right(cell))
    }

    /// The free cell below a cell of the map, if there is one.
    pub fn free_below(&self, cell: Cell) -> Option<Cell>
        requires { cell < cells self.now }
        ensures { (v : ℕ) → (result ≡ Some v) ↔ ((v ≡ cell + self.now.width) × IsFree self.now v) }
    {
        self.if_free(self.cell_below(cell))
    }

    /// The cell, if there is one and it is free.
    fn if_free(&self, cell: Option<Cell>) -> Option<Cell>
        ensures { (v : ℕ) → (result ≡ Some v) ↔ ((cell ≡ Some v) × IsFree self.now v) }
    {
        match cell {
            Some(cell) if self.is_free(cell) => Some(cell),
            _ => None,
        }
    }
}
