ghost use Rattle.std.specs.Prelude.{◌≡◌, IfOk};
ghost use Rattle.mapf_low.specs.Query.{IsPosed, HasDistances};
ghost use Rattle.mapf_low.specs.Forwards.FLevels.{IsSearched};

use crate::cell_set::CellSet;
use crate::forwards::expansion::{expand_level, fill_later_levels};
use crate::query::Query;
use mapf_grid::NoMemory;
use std::alloc::Global;

/// What a search reached: the f-levels that it emptied, of which the first has the sum `nearest`, and the sum with which
/// the agent can end, if there is one.
#[derive(Drop)]
pub(crate) struct Searched {
    pub(crate) nearest: u32,
    pub(crate) levels: Vec<CellSet>,
    pub(crate) end: Option<u32>,
}

impl Searched {
    /// A search that emptied these f-levels and ends with this sum, or with none.
    fn of(nearest: u32, levels: Vec<CellSet>, end: Option<u32>) -> Searched
        ensures nearest { result.nearest ≡ nearest }
        ensures levels { result.levels.items ≡ levels.items }
        ensures end { result.end ≡ end }
    {
        Searched {
            nearest,
            levels,
            end,
        }
    }
}

/// For how many cells the first f-level gets room, by the distance from the start to the goal: on open ground the shortest
/// steps to the goal may go over a quarter of its square, and a way to the goal has a cell for each time step.
fn first_room(nearest: u32) -> usize {
    let near = (nearest as usize).min(256);
    (4 * near + near * near / 8 + 4).max(nearest as usize + 1)
}

/// Takes the states, cells at time steps, by rising sum of time and distance to the goal, f-level by f-level, up to the first
/// in which the agent can end; that one is emptied too.
pub(crate) fn search(alloc: Global, query: &Query) -> Result<Searched, NoMemory>
    requires { HasDistances query.now }
    ensures posed { IsPosed query.now }
    ensures searched { IfOk result (λ s. IsSearched query.now s.nearest s.levels.items s.end) }
{
    let bound = query.bound();
    let start = query.start();
    let mut levels = Vec::new(alloc);
    if !query.is_usable(start, 0) {
        return Ok(Searched::of(0, levels, None));
    }
    let nearest = query.entry(start).unwrap();
    let mut now = CellSet::new(alloc);
    let mut next = CellSet::new(alloc);
    let mut after = CellSet::new(alloc);
    now.make_room(first_room(nearest))?;
    now.add(start)?;
    for sum in nearest..bound + 1 {
        expand_level(query, sum, &mut now)?;
        if query.can_end(&now, sum) {
            levels.push(now)?;
            return Ok(Searched::of(nearest, levels, Some(sum)));
        }
        fill_later_levels(query, sum, &now, &mut next, &mut after)?;
        levels.push(now)?;
        if next.is_empty() && after.is_empty() {
            return Ok(Searched::of(nearest, levels, None));
        }
        now = next;
        next = after;
        after = CellSet::new(alloc);
    }
    Ok(Searched::of(nearest, levels, None))
}
