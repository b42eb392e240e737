//! What holds of one agent's paths: functions that do nothing, each with one law as its contract; and an agent's own path
//! found in another way, for tests.

ghost use Rattle.std.specs.Prelude.{ℕ, ◌≤◌, List, IfOk, MatchOption};
ghost use Rattle.mapf_grid.specs.Grid.{IsFree};
ghost use Rattle.mapf_low.specs.Walk.{AreDistances};
ghost use Rattle.mapf_low.specs.Forwards.Taken.{AreTaken};
ghost use Rattle.mapf_low.specs.Constraints.{IsAllowed};
ghost use Rattle.mapf_low.specs.OwnPath.{IsOwnPath, OrderIsByLast, OwnPathExists};
ghost use Rattle.mapf_plan.specs.declared.answer.TheConstants.{MOST_BOUND};

use crate::by_layers::search_by_layers;
use crate::forwards::taken::list_states;
use crate::query::Query;
use crate::{Constraints, Distances};
use mapf_grid::{Cell, Map, NoMemory};
use mapf_plan::Path;
use std::alloc::Global;

/// Among paths of one cost that one comes first which has the smaller cell at the last place where the two differ.
pub fn order_is_by_last()
    ensures { OrderIsByLast }
{}

/// An agent has an own path under its constraints, or there is no path that it may take.
pub fn own_path_exists()
    ensures { OwnPathExists }
{}

/// An agent's own path, as [`crate::cheapest`] gives it, by layers over time: the cells reached at time 0, 1, 2 and so on.
/// Tests compare the two.
pub fn cheapest_by_layers(
    alloc: Global,
    map: &Map,
    distances: &Distances,
    start: Cell,
    goal: Cell,
    constraints: &Constraints,
    bound: u32,
) -> Result<Option<Path>, NoMemory>
    requires start { IsFree map.now start }
    requires goal { IsFree map.now goal }
    requires distances { AreDistances map.now goal distances.now }
    requires bound { bound ≤ MOST_BOUND }
    ensures { IfOk result (λ found. MatchOption found
        ((p : List ℕ) → ¬ IsAllowed map.now start goal bound constraints.now p)
        (IsOwnPath map.now start goal bound constraints.now)) }
{
    let table = distances.table();
    let query = Query::new(alloc, map, table, start, goal, constraints, bound)?;
    search_by_layers(alloc, &query)
}

/// The states, cells at time steps, that the search of [`crate::cheapest`] takes, each once and in the order in which it
/// takes them: by rising sum of the time and the distance to the goal. Where the goal is forbidden at the bound or later
/// there is no path, and none is taken.
pub fn taken(
    alloc: Global,
    map: &Map,
    distances: &Distances,
    start: Cell,
    goal: Cell,
    constraints: &Constraints,
    bound: u32,
) -> Result<Vec<(Cell, u32)>, NoMemory>
    requires start { IsFree map.now start }
    requires goal { IsFree map.now goal }
    requires distances { AreDistances map.now goal distances.now }
    requires bound { bound ≤ MOST_BOUND }
    ensures { IfOk result (λ states. AreTaken map.now distances.now start goal bound constraints.now states.items) }
{
    let table = distances.table();
    let query = Query::new(alloc, map, table, start, goal, constraints, bound)?;
    list_states(alloc, &query)
}
