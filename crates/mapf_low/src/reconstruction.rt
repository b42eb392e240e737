ghost use Rattle.std.specs.Prelude.{◌≡◌, ◌↔◌, ℕ, ◌+◌, ◌<◌, ◌≤◌, IfOk, Contains};
ghost use Rattle.mapf_grid.specs.Grid.{IsFree, Next};
ghost use Rattle.mapf_low.specs.Best.{smaller_of};
ghost use Rattle.mapf_low.specs.Reached.{ComesFrom, AreLinked, IsSmallestBefore, IsReconstructed};
ghost use Rattle.mapf_plan.specs.declared.answer.TheConstants.{MOST_BOUND};

use crate::query::Query;
use mapf_grid::{Cell, NoMemory};
use mapf_plan::Path;
use smallvec::SmallVec;
use std::alloc::Global;

/// Where an agent may be at each time step.
pub(crate) trait Reached {
    ghost use Rattle.std.specs.Prelude.{◌↔◌, ℕ, IsTrue};

    /// It may be at this time on this cell.
    ghost has: { Self → ℕ → ℕ → Type 0 };

    /// Whether it may be on the cell at this time step.
    fn has(&self, cell: Cell, time: u32) -> bool
        ensures { IsTrue result ↔ has self.now time cell };
}

/// The smaller of two cells, where there is one.
fn smaller(one: Option<Cell>, other: Option<Cell>) -> Option<Cell>
    ensures { result ≡ smaller_of one other }
{
    match (one, other) {
        (Some(x), Some(y)) => Some(Cell::of(x.number().min(y.number()))),
        (None, y) => y,
        (x, None) => x,
    }
}

/// The cells that a step may lead to, the cell itself among them.
fn steps_from(alloc: Global, query: &Query, cell: Cell) -> Result<SmallVec<Cell, 5>, NoMemory>
    requires { IsFree query.now.grid cell }
    ensures { IfOk result (λ found. (v : ℕ) → Contains found.items v ↔ Next query.now.grid cell v) }
{
    let mut found = SmallVec::from_slice(alloc, query.neighbours(cell).as_slice())?;
    found.push(cell)?;
    Ok(found)
}

/// The smallest cell that is reached at this time step and from which the given one may be entered at the next.
fn smallest_before<R: Reached>(
    alloc: Global,
    query: &Query,
    reached: &R,
    cell: Cell,
    time: u32,
) -> Result<Cell, NoMemory>
    requires free { IsFree query.now.grid cell }
    requires early { time < MOST_BOUND }
    requires some { (u : ℕ) × ComesFrom query.now (time + 1) (R.has reached.now time) cell u }
    ensures { IfOk result (IsSmallestBefore query.now (time + 1) (R.has reached.now time) cell) }
{
    let mut smallest = None;
    for from in steps_from(alloc, query, cell)?.as_slice() {
        if reached.has(*from, time) && query.allows_step(*from, cell, time + 1) {
            smallest = smaller(smallest, Some(*from));
        }
    }
    Ok(smallest.unwrap())
}

/// The path that arrives on the goal at this time step, read backwards by the smallest earlier cell.
pub(crate) fn reconstruct_path<R: Reached>(
    alloc: Global,
    query: &Query,
    reached: &R,
    end: u32,
) -> Result<Path, NoMemory>
    requires linked { AreLinked query.now (R.has reached.now) end }
    requires arrived { R.has reached.now end query.now.goal }
    requires short { end ≤ MOST_BOUND }
    ensures { IfOk result (λ path. IsReconstructed query.now (R.has reached.now) path 0 end) }
{
    let mut cells = vec![in alloc; query.goal(); end as usize + 1]?;
    for time in (0..end).rev() {
        let place = time as usize;
        cells[place] = smallest_before(alloc, query, reached, cells[place + 1], time)?;
    }
    Ok(Path::of(cells))
}
