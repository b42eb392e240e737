ghost use Rattle.std.specs.Prelude.{◌≡◌, ◌-◌, ◌<◌, ◌↔◌, IsTrue, Some, slice_get};
ghost use Rattle.mapf_plan.specs.Path.{at, cost};

use mapf_grid::Cell;
use mapf_plan::Path;

/// Whether the path begins on this cell.
pub fn starts_on(path: &Path, start: Cell) -> bool
    ensures { IsTrue result ↔ (slice_get path.now 0 ≡ Some start) }
{
    path.cells()[0] == start
}

/// Whether the path ends on this cell.
pub fn ends_on(path: &Path, goal: Cell) -> bool
    ensures { IsTrue result ↔ (at path.now (cost path.now) ≡ goal) }
{
    path.at(path.cost()) == goal
}

/// Whether the path is on this cell one step before its end already.
pub fn is_early_on(path: &Path, goal: Cell) -> bool
    ensures { IsTrue result ↔ ((0 < cost path.now) × (at path.now (cost path.now - 1) ≡ goal)) }
{
    let cost = path.cost();
    cost > 0 && path.at(cost - 1) == goal
}
