ghost use Rattle.std.specs.Prelude.{◌≡◌, ◌≢◌, ℕ, ◌+◌, ◌*◌, ◌/◌, ◌%◌, ◌<◌, ◌≤◌, ◌↔◌, [], IsTrue, Some, SomeIff, Contains};
ghost use Rattle.std.specs.List.Sorted.{IsStrictlyIncreasing};
ghost use Rattle.smallvec.specs.SmallVec.{HasRoomFor};

mod free_neighbours;
mod header;
mod reader;
mod row_starts;
mod steps;

use crate::Cell;
use crate::map::row_starts::RowStarts;
pub use header::MOST_SIDE;
use smallvec::SmallVec;
use std::marker::Model;

/// A map of the MovingAI format: which cells of a grid are free.
pub struct Map {
    width: u32,
    height: u32,
    free: Vec<bool>,
    row_starts: RowStarts,
}

// By hand, so that a proof about what holds one sees a call where it is dropped, and not its fields.
impl Drop for Map {
    fn drop(self) {
        let Map {
            width: _,
            height: _,
            free: _,
            row_starts: _,
        } = self;
    }
}

impl Model for Map {
    ghost use Rattle.std.specs.Prelude.{◌≡◌};
    ghost use Rattle.mapf_grid.specs.Grid.{Grid, HasSizes};

    ghost Value = { Grid };

    ghost view = { λ m. record { width = m.width; height = m.height; free = m.free.items } };

    ghost invariant = { λ m. HasSizes (record { width = m.width; height = m.height; free = m.free.items })
        × (m.row_starts ≡ m.width) };
}

impl Map {
    ghost use Rattle.mapf_grid.specs.Grid.{Grid, cells, IsFree, IsBeside, Next, HasSizes};
    ghost use Rattle.mapf_grid.specs.FreeNeighbours.{PushesFree};

    /// How many columns there are: 1 to 2,048.
    pub fn width(&self) -> u32
        ensures width { result ≡ self.now.width }
        ensures sizes { HasSizes self.now }
    {
        self.width
    }

    /// How many rows there are: 1 to 2,048.
    pub fn height(&self) -> u32
        ensures height { result ≡ self.now.height }
        ensures sizes { HasSizes self.now }
    {
        self.height
    }

    /// The cell in column `x` of row `y`, from 0, the upper left cell being 0,0; none outside the map.
    pub fn cell(&self, x: u32, y: u32) -> Option<Cell>
        ensures { SomeIff result ((x < self.now.width) × (y < self.now.height)) (y * self.now.width + x) }
    {
        if x < self.width && y < self.height {
            Some(Cell::of(y * self.width + x))
        } else {
            None
        }
    }

    /// The column and the row of a cell of the map, from 0.
    pub fn xy(&self, cell: Cell) -> (u32, u32)
        requires { cell < cells self.now }
        ensures column { result.0 ≡ cell % self.now.width }
        ensures row { result.1 ≡ cell / self.now.width }
        ensures inside { (result.0 < self.now.width) × (result.1 < self.now.height) }
    {
        let number = cell.number();
        (number % self.width, number / self.width)
    }

    /// Whether an agent may stand on this cell: never on a number outside the map.
    pub fn is_free(&self, cell: Cell) -> bool
        ensures { IsTrue result ↔ IsFree self.now cell }
    {
        self.free
            .get(cell.number() as usize)
            .copied()
            .unwrap_or(false)
    }

    /// Of each cell, in order of number, whether an agent may stand on it.
    pub fn free_cells(&self) -> &[bool]
        ensures free { result.now ≡ self.now.free }
        ensures sizes { HasSizes self.now }
    {
        &self.free
    }

    /// The free cells at the four sides of a cell of the map, numbers rising. No memory is taken.
    pub fn neighbours(&self, cell: Cell) -> SmallVec<Cell, 4>
        requires { cell < cells self.now }
        ensures neighbours { (v : ℕ) → Contains result.items v ↔ (IsFree self.now v × IsBeside self.now cell v) }
        ensures steps { IsFree self.now cell → (v : ℕ) → Contains result.items v ↔ (Next self.now cell v × (cell ≢ v)) }
        ensures rising { IsStrictlyIncreasing result.items }
    {
        let mut neighbours = SmallVec::new(*self.free.allocator());
        self.push_free(self.cell_above(cell), &mut neighbours);
        self.push_free(self.cell_at_left(cell), &mut neighbours);
        self.push_free(self.cell_at_right(cell), &mut neighbours);
        self.push_free(self.cell_below(cell), &mut neighbours);
        neighbours
    }

    /// The cell above, where there is one.
    pub fn cell_above(&self, cell: Cell) -> Option<Cell>
        ensures { (v : ℕ) → (result ≡ Some v) ↔ (cell ≡ v + self.now.width) }
    {
        let number = cell.number();
        if self.width <= number {
            Some(Cell::of(number - self.width))
        } else {
            None
        }
    }

    /// The cell at the left in the same row, where there is one.
    pub fn cell_at_left(&self, cell: Cell) -> Option<Cell>
        ensures { (v : ℕ) → (result ≡ Some v) ↔ ((cell ≡ v + 1) × (cell / self.now.width ≡ v / self.now.width)) }
    {
        let number = cell.number();
        if self.row_starts.has(number) {
            None
        } else {
            Some(Cell::of(number - 1))
        }
    }

    /// The cell at the right in the same row, where there is one.
    pub fn cell_at_right(&self, cell: Cell) -> Option<Cell>
        requires { cell < cells self.now }
        ensures { (v : ℕ) → (result ≡ Some v) ↔ ((v ≡ cell + 1) × (v / self.now.width ≡ cell / self.now.width)) }
    {
        let row_starts = &self.row_starts;
        let next = cell.number() + 1;
        if row_starts.has(next) {
            None
        } else {
            Some(Cell::of(next))
        }
    }

    /// The number of the cell below, which may lie outside the map.
    pub fn cell_below(&self, cell: Cell) -> Option<Cell>
        requires { cell < cells self.now }
        ensures { (v : ℕ) → (result ≡ Some v) ↔ (v ≡ cell + self.now.width) }
    {
        Some(Cell::of(cell.number() + self.width))
    }

    /// Adds a cell to the list, if there is one and it is free.
    fn push_free(&self, cell: Option<Cell>, neighbours: &mut SmallVec<Cell, 4>)
        requires { HasRoomFor neighbours.old 1 }
        ensures pushes { PushesFree self.now cell neighbours.old.items neighbours.new.items }
        ensures capacity { neighbours.new.capacity ≡ neighbours.old.capacity }
    {
        if let Some(cell) = cell {
            if self.is_free(cell) {
                neighbours.push_reserved(cell);
            }
        }
    }
}
