ghost use Rattle.std.specs.Prelude.{◌-◌, ◌≤◌, ◌↔◌, IsTrue, Contains};
ghost use Rattle.mapf_low.specs.Forwards.FLevels.{level_at, InFLevels};

use crate::forwards::searched::Searched;
use crate::query::Query;
use crate::reconstruction::Reached;
use mapf_grid::Cell;

/// The states that a search reached: cells at time steps.
#[derive(Clone, Copy)]
pub(crate) struct States<'a> {
    pub(crate) query: &'a Query<'a>,
    pub(crate) searched: &'a Searched,
}

impl Reached for States<'_> {
    ghost has = { λ s. InFLevels s.query.now s.searched.now.nearest s.searched.now.levels.items };

    fn has(&self, cell: Cell, time: u32) -> bool {
        matches!(self.query.entry(cell), Some(distance)
            if is_in_level(self.searched, cell, u64::from(time) + u64::from(distance)))
    }
}

/// Whether the cell is in the f-level of this sum.
fn is_in_level(searched: &Searched, cell: Cell, sum: u64) -> bool
    ensures { IsTrue result ↔ ((searched.now.nearest ≤ sum)
        × Contains (level_at searched.now.levels.items (sum - searched.now.nearest)) cell) }
{
    let nearest = u64::from(searched.nearest);
    if sum < nearest {
        return false;
    }
    matches!(searched.levels.get((sum - nearest) as usize), Some(level) if level.contains(cell))
}
