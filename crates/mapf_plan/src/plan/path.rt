ghost use Rattle.std.specs.Prelude.{◌≡◌, ◌≢◌, ℕ, ◌+◌, ◌<◌, ◌≤◌, length, slice_index, IfOk, IsFalse, IsTrue};
ghost use Rattle.mapf_plan.specs.Path.{at, cost, IsFirstTime};
ghost use Rattle.mapf_plan.specs.declared.plan.path.TheConstants.{MOST_CELLS};
ghost use Rattle.mapf_plan.specs.declared.answer.TheConstants.{MOST_BOUND};

use mapf_grid::{Cell, NoMemory};
use std::alloc::Global;
use std::marker::Model;

/// The greatest number of a path's cells: one more than the greatest bound.
pub const MOST_CELLS: usize = 1_000_001;

/// One agent's cells at the time steps 0, 1, 2 and so on: at least one, at most 1,000,001.
#[derive(Debug, Drop)]
pub struct Path {
    cells: Vec<Cell>,
}

impl Model for Path {
    ghost use Rattle.std.specs.Prelude.{ℕ, List, ◌<◌, ◌≤◌, length};
    ghost use Rattle.mapf_plan.specs.declared.plan.path.TheConstants.{MOST_CELLS};

    ghost Value = { List ℕ };

    ghost view = { λ p. p.cells.items };

    ghost invariant = { λ p. (0 < length p.cells.items) × (length p.cells.items ≤ MOST_CELLS) };
}

impl Path {
    /// The path over these cells.
    pub fn of(cells: Vec<Cell>) -> Self
        requires some { 0 < length cells.items }
        requires few { length cells.items ≤ MOST_CELLS }
        ensures { result ≡ cells.items }
    {
        Path { cells }
    }

    /// The cells, in order of time.
    pub fn cells(&self) -> &[Cell]
        ensures cells { result.now ≡ self.now }
        ensures some { 0 < length self.now }
        ensures few { length self.now ≤ MOST_CELLS }
    {
        self.cells.as_slice()
    }

    /// The number of steps, waits among them: the number of cells less one.
    pub fn cost(&self) -> u32
        ensures cost { result ≡ cost self.now }
        ensures small { result ≤ MOST_BOUND }
    {
        (self.cells.len() - 1) as u32
    }

    /// Where the agent is at a time step: it stays on the last cell.
    pub fn at(&self, time: u32) -> Cell
        ensures { result ≡ at self.now time }
    {
        let place = time as usize;
        if place < self.cells.len() {
            self.cells[place]
        } else {
            self.cells[self.cells.len() - 1]
        }
    }

    /// An equal path.
    pub fn copy(&self, alloc: Global) -> Result<Path, NoMemory>
        ensures { IfOk result (λ other. other ≡ self.now) }
    {
        Ok(Path::of(self.cells().to_vec(alloc)?))
    }

    /// Whether another path has the same cells.
    pub(crate) fn is_same(&self, other: &Path) -> bool
        ensures { IsTrue result → self.now ≡ other.now }
    {
        self.cells() == other.cells()
    }

    /// For how many time steps from the first on the two paths are on the same cells, as far as the shorter one goes.
    pub fn shared_steps(&self, other: &Path) -> u32
        ensures { (time : ℕ) → time < result → at self.now time ≡ at other.now time }
    {
        let steps = self.cost().min(other.cost()) + 1;
        for time in 0..steps {
            if self.at(time) != other.at(time) {
                return time;
            }
        }
        steps
    }

    /// The first of these time steps at which the agent is on a cell, if it is on it at one of them.
    pub(crate) fn first_time_on(&self, cell: Cell, from: u32, end: u32) -> Option<u32>
        requires { end ≤ cost self.now + 1 }
        ensures { IsFirstTime (λ t. at self.now t ≡ cell) from end result }
    {
        for time in from..end {
            if self.at(time) == cell {
                return Some(time);
            }
        }
        None
    }
}
