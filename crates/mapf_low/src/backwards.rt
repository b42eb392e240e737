ghost use Rattle.std.specs.Prelude.{◌≡◌, ℕ, ◌≤◌, List, IfOk, OnOk, MatchOption};
ghost use Rattle.mapf_grid.specs.Grid.{IsFree};
ghost use Rattle.mapf_low.specs.Lookup.{IfKnown};
ghost use Rattle.mapf_low.specs.Backwards.Tracing.{IsLeft, AreDead, IsTraced, HasNoneBefore};
ghost use Rattle.mapf_low.specs.Constraints.{IsAllowed};
ghost use Rattle.mapf_low.specs.Backwards.Earliest.{HasEarliest};
ghost use Rattle.mapf_low.specs.OwnPath.{IsOwnPath};
ghost use Rattle.mapf_low.specs.Query.{IsFound};
ghost use Rattle.mapf_low.specs.Walk.{AreDistances};
ghost use Rattle.mapf_plan.specs.Path.{cost};
ghost use Rattle.mapf_plan.specs.declared.answer.TheConstants.{MOST_BOUND};

pub(crate) mod dead_ends;
mod earliest;

use crate::backwards::dead_ends::DeadEnds;
use crate::backwards::earliest::earliest_arrivals;
use crate::query::Query;
use crate::{Constraints, Distances, Lookup};
use mapf_grid::{Cell, Map, NoMemory};
use mapf_plan::Path;
use std::alloc::Global;
use std::mem::replace;

/// The least list of steps to the goal that arrives there at this time step, by the smaller cell at the last place where two
/// differ: read from its end, where each place before is the smallest cell that nothing rules out. None, if no list of steps
/// does; unknown, if there was no room for a dead end.
///
/// What is found to be a dead end is added to `dead`, and holds for every cost. `cells` is room for the list, whatever it has:
/// it is kept for the next cost, or goes out with the path.
fn trace(
    alloc: Global,
    query: &Query,
    end: u32,
    dead: &mut DeadEnds,
    cells: &mut Vec<Cell>,
) -> Result<Lookup<Option<Path>>, NoMemory>
    requires end { end ≤ query.now.bound }
    requires left { IsLeft query.now dead.old.states end query.now.goal }
    requires dead { AreDead query.now dead.old.states }
    requires earliest { HasEarliest query.now }
    ensures path { IfOk result (λ answer. IfKnown answer (IsTraced query.now end)) }
    ensures dead { OnOk result (AreDead query.now dead.new.states) }
{
    let goal = query.goal();
    let count = end as usize + 1;
    // A path is kept for long, so it gets no room to spare.
    cells.reserve_exact(count.saturating_sub(cells.len()))?;
    cells.resize(count, goal)?;
    cells[end as usize] = goal;
    let mut time = end;
    while time > 0 {
        let cell = cells[time as usize];
        match query.smallest_before(dead, cell, time - 1) {
            Some(before) => {
                time -= 1;
                cells[time as usize] = before;
            }
            None if dead.is_full() => return Ok(Lookup::Unknown),
            None => {
                dead.add(cell, time)?;
                if time == end {
                    return Ok(Lookup::Known(None));
                }
                time += 1;
            }
        }
    }
    Ok(Lookup::Known(Some(Path::of(replace(cells, Vec::new(alloc))))))
}

/// The own path that is asked for, which costs at least `first`: what a list of steps of the first cost gives at which one
/// leads to the goal, and may end there. Unknown, if more than `budget` dead ends were met.
fn trace_first(
    alloc: Global,
    query: &Query,
    first: u32,
    budget: usize,
) -> Result<Lookup<Option<Path>>, NoMemory>
    requires before { HasNoneBefore query.now first }
    requires earliest { HasEarliest query.now }
    ensures { IfOk result (λ answer. IfKnown answer (IsFound query.now)) }
{
    let goal = query.goal();
    let mut dead = DeadEnds::new(alloc, budget);
    let mut cells = Vec::new(alloc);
    for end in first..query.bound() + 1 {
        if query.may_end(end) && query.is_left(&dead, goal, end) {
            match trace(alloc, query, end, &mut dead, &mut cells)? {
                Lookup::Unknown => return Ok(Lookup::Unknown),
                Lookup::Known(Some(path)) => return Ok(Lookup::Known(Some(path))),
                Lookup::Known(None) => {}
            }
        }
    }
    Ok(Lookup::Known(None))
}

/// The own path that is asked for, where no path that the agent may take costs less than `least`. Unknown, if more than `budget`
/// dead ends were met.
fn own_path(
    alloc: Global,
    query: &Query,
    least: u32,
    budget: usize,
) -> Result<Lookup<Option<Path>>, NoMemory>
    requires least { (p : List ℕ) → IsAllowed query.now.grid query.now.start query.now.goal query.now.bound
        query.now.constraints p → least ≤ cost p }
    requires earliest { HasEarliest query.now }
    ensures { IfOk result (λ answer. IfKnown answer (IsFound query.now)) }
{
    match query.entry(query.goal()) {
        Some(earliest) => trace_first(alloc, query, least.max(earliest), budget),
        None => Ok(Lookup::Known(None)),
    }
}

/// What a search backwards is given beside what one forwards is.
#[derive(Drop)]
pub struct Backwards<'a> {
    /// The distances to the start.
    pub from_start: &'a Distances,
    /// No path that the agent may take costs less.
    pub least: u32,
    /// How many dead ends the search may meet: cells at a time step from which it had to go back.
    pub budget: usize,
}

/// An agent's own path, as [`crate::cheapest`] gives it, by a search backwards: for a rising cost, from the goal at that time
/// step to the start at time 0. Where it meets more dead ends than its budget it begins again, by when the agent can be on each
/// cell at the earliest under its constraints, in place of the distances. It is unknown where it met too many then, too; known to
/// be none where there is no path that the agent may take; or its own path. Only `NoMemory` is an error.
pub fn cheapest_backwards(
    alloc: Global,
    map: &Map,
    start: Cell,
    goal: Cell,
    constraints: &Constraints,
    bound: u32,
    by: &Backwards<'_>,
) -> Result<Lookup<Option<Path>>, NoMemory>
    requires start { IsFree map.now start }
    requires goal { IsFree map.now goal }
    requires from_start { AreDistances map.now start by.now.from_start.now }
    requires least { (p : List ℕ) → IsAllowed map.now start goal bound constraints.now p → by.now.least ≤ cost p }
    requires bound { bound ≤ MOST_BOUND }
    ensures { IfOk result (λ answer. IfKnown answer (λ found. MatchOption found
        ((p : List ℕ) → ¬ IsAllowed map.now start goal bound constraints.now p)
        (IsOwnPath map.now start goal bound constraints.now))) }
{
    // A map's sizes are known from a call alone.
    let _width = map.width();
    let table = by.from_start.table();
    let by_distance = Query::new(alloc, map, table, start, goal, constraints, bound)?;
    if let Lookup::Known(answer) = own_path(alloc, &by_distance, by.least, by.budget)? {
        return Ok(Lookup::Known(answer));
    }
    let arrivals = earliest_arrivals(alloc, &by_distance)?;
    let by_arrival = Query::new(alloc, map, &arrivals, start, goal, constraints, bound)?;
    own_path(alloc, &by_arrival, by.least, by.budget)
}
