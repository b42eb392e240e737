//! Marks of cells.

use mapf_grid::{Cell, NoMemory};
use std::alloc::Global;

/// A number for each of some cells.
#[derive(Drop)]
pub(super) struct Marks {
    /// Each cell's number, and in which round it got it.
    marks: Vec<(u64, usize)>,
    round: u64,
}

impl Marks {
    /// Room for so many cells, none of which has a number.
    pub(super) fn new(alloc: Global, cells: usize) -> Result<Marks, NoMemory> {
        Ok(Marks {
            marks: vec![in alloc; (0, 0); cells]?,
            round: 1,
        })
    }

    /// No cell has a number.
    pub(super) fn clear(&mut self) {
        self.round = self.round.saturating_add(1);
    }

    /// The cell's number.
    pub(super) fn get(&self, cell: Cell) -> Option<usize> {
        let (round, number) = *self.marks.get(cell.number() as usize)?;
        (round == self.round).then_some(number)
    }

    /// The cell gets a number.
    pub(super) fn put(&mut self, cell: Cell, number: usize) {
        let round = self.round;
        if let Some(mark) = self.marks.get_mut(cell.number() as usize) {
            *mark = (round, number);
        }
    }
}
