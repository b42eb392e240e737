ghost use Rattle.std.specs.Prelude.{◌≡◌, ◌<◌, ◌+◌, ◌^◌, length, map, replicate, slice_set, slice_index_or, None, Some, IfOk};
ghost use Rattle.mapf_low.specs.Distances.Mark.{distance_of};

use crate::distances::mark::Mark;
use mapf_grid::{Cell, NoMemory};
use std::alloc::Global;
use std::marker::Model;

/// Of each cell of a map a number of time steps or of steps, or none; in 4 bytes a cell.
#[derive(Drop)]
pub(crate) struct Table {
    marks: Vec<Mark>,
}

impl Model for Table {
    ghost use Rattle.std.specs.Prelude.{ℕ, List, Option, map};
    ghost use Rattle.mapf_low.specs.Distances.Mark.{distance_of};

    ghost Value = { List (Option ℕ) };

    ghost view = { λ t. map distance_of t.marks.items };
}

impl Table {
    /// Nothing is known of so many cells.
    pub(crate) fn none(alloc: Global, cells: u32) -> Result<Table, NoMemory>
        ensures { IfOk result (λ t. t ≡ replicate cells None) }
    {
        Ok(Table {
            marks: vec![in alloc; Mark::first(false); cells as usize]?,
        })
    }

    /// The distances that these marks tell.
    pub(crate) fn of(marks: Vec<Mark>) -> Table
        ensures { result ≡ map distance_of marks.items }
    {
        Table { marks }
    }

    /// What there is of a cell; none of a number outside the table.
    pub(crate) fn get(&self, cell: Cell) -> Option<u32>
        ensures { result ≡ slice_index_or self.now cell None }
    {
        self.marks.get(cell.number() as usize)?.distance()
    }

    /// Sets what there is of a cell.
    pub(crate) fn set(&mut self, cell: Cell, number: u32)
        requires cell { cell < length self.old }
        requires room { number + 2 < 2 ^ 32 }
        ensures { self.new ≡ slice_set self.old cell (Some number) }
    {
        self.marks[cell.number() as usize] = Mark::of_distance(number);
    }
}
