//! The cells that the agents so far have taken, and which agent has each.

ghost use Rattle.std.specs.Prelude.{◌≡◌, ◌≢◌, ◌<◌, ◌++◌, ◌∷◌, [], ℕ, length, slice_index, OnOk, OnErr, MatchOption};
ghost use Rattle.mapf_grid.specs.NewAgent.{IsFirstAt};

use crate::{Cell, NoMemory};
use std::alloc::Global;
use std::collections::BTreeMap;
use std::marker::Model;

/// The agents' cells in order, with an index by which a cell's first agent is found without looking through them.
#[derive(Drop)]
pub(super) struct Taken {
    cells: Vec<Cell>,
    /// The first agent at each cell, by the cell's number.
    first: BTreeMap<u32, usize>,
}

impl Model for Taken {
    ghost use Rattle.std.specs.Prelude.{ℕ, List};
    ghost use Rattle.std.specs.Ordering.{nat_cmp};
    ghost use Rattle.std.specs.BTreeMap.{get};
    ghost use Rattle.mapf_grid.specs.NewAgent.{IsIndex};

    ghost Value = { List ℕ };

    ghost view = { λ t. t.cells.items };

    ghost invariant = { λ t. IsIndex t.cells.items (get nat_cmp t.first) };
}

impl Taken {
    /// No cell is taken.
    pub(super) fn new(alloc: Global) -> Self
        ensures { result ≡ [] }
    {
        Taken {
            cells: Vec::new(alloc),
            first: BTreeMap::new(alloc),
        }
    }

    /// The first agent at this cell.
    pub(super) fn first_at(&self, cell: Cell) -> Option<usize>
        ensures { MatchOption result
            ((i : ℕ) → i < length self.now → slice_index self.now i ≢ cell) (IsFirstAt self.now cell) }
    {
        self.first.get(&cell.number()).copied()
    }

    /// Takes a cell for the next agent.
    pub(super) fn push(&mut self, cell: Cell) -> Result<(), NoMemory>
        requires { (i : ℕ) → i < length self.old → slice_index self.old i ≢ cell }
        ensures pushed { OnOk result (self.new ≡ self.old ++ cell ∷ []) }
        ensures kept { OnErr result (self.new ≡ self.old) }
    {
        let agent = self.cells.len();
        self.cells.push(cell)?;
        match self.first.insert(cell.number(), agent) {
            Ok(_) => Ok(()),
            Err(_) => {
                self.cells.pop();
                Err(NoMemory)
            }
        }
    }

    /// The cells, one for each agent.
    pub(super) fn into_cells(self) -> Vec<Cell>
        ensures { result.items ≡ self }
    {
        self.cells
    }
}
