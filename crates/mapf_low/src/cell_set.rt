ghost use Rattle.std.specs.Prelude.{◌≡◌, ◌↔◌, [], eqb, IsTrue, OnOk, Contains};
ghost use Rattle.std.specs.List.{IsDistinct};
ghost use Rattle.mapf_low.specs.Forwards.FLevels.{IsAdded};

use indexmap::IndexSet;
use mapf_grid::{Cell, NoMemory};
use std::alloc::Global;
use std::marker::Model;

/// Cells that an agent may reach, with one sum of time and distance or at one time step, in the order in which they were
/// reached.
pub(crate) struct CellSet {
    cells: IndexSet<Cell>,
}

// By hand, so that a proof about what holds one sees a call where it is dropped, and not its fields.
impl Drop for CellSet {
    fn drop(self) {
        let CellSet { cells: _ } = self;
    }
}

impl Model for CellSet {
    ghost use Rattle.std.specs.Prelude.{ℕ, List, eqb};
    ghost use Rattle.std.specs.List.{IsDistinct};

    ghost Value = { List ℕ };

    ghost view = { λ c. c.cells.keys };

    ghost invariant = { λ c. IsDistinct eqb c.cells.keys };
}

impl CellSet {
    /// No cell.
    pub(crate) fn new(alloc: Global) -> Self
        ensures { result ≡ [] }
    {
        CellSet {
            cells: IndexSet::new(alloc),
        }
    }

    /// Makes room for so many cells more.
    pub(crate) fn make_room(&mut self, more: usize) -> Result<(), NoMemory>
        ensures { OnOk result (self.new ≡ self.old) }
    {
        self.cells.reserve(more)?;
        Ok(())
    }

    /// The cells, each once.
    pub(crate) fn cells(&self) -> &[Cell]
        ensures cells { result.now ≡ self.now }
        ensures once { IsDistinct eqb self.now }
    {
        self.cells.as_slice()
    }

    /// Whether there is no cell.
    pub(crate) fn is_empty(&self) -> bool
        ensures { IsTrue result ↔ (self.now ≡ []) }
    {
        self.cells.is_empty()
    }

    /// Whether the cell is one of these.
    pub(crate) fn contains(&self, cell: Cell) -> bool
        ensures { IsTrue result ↔ Contains self.now cell }
    {
        self.cells.contains(&cell)
    }

    /// Adds a cell behind the others, if it isn't there yet.
    pub(crate) fn add(&mut self, cell: Cell) -> Result<(), NoMemory>
        ensures { OnOk result (IsAdded cell self.old self.new) }
    {
        self.cells.insert(cell)?;
        Ok(())
    }
}
