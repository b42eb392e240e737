ghost use Rattle.std.specs.Prelude.{◌≡◌, ◌↔◌, ℕ, ◌≤◌, List, IsTrue, IfOk, MatchOption};
ghost use Rattle.std.specs.Option.{option_map};
ghost use Rattle.mapf_grid.specs.Grid.{IsFree};
ghost use Rattle.mapf_low.specs.Walk.{AreDistances};
ghost use Rattle.mapf_plan.specs.Path.{cost};
ghost use Rattle.mapf_low.specs.Query.{HasDistances, IsFound};
ghost use Rattle.mapf_low.specs.Forwards.Chain.{IsChain};
ghost use Rattle.mapf_low.specs.Forwards.FLevels.{IsSearched, InFLevels};
ghost use Rattle.mapf_low.specs.Reached.{AreLinked, IsReconstructed};
ghost use Rattle.mapf_low.specs.Constraints.{IsAllowed};
ghost use Rattle.mapf_low.specs.OwnPath.{IsOwnPath};
ghost use Rattle.mapf_plan.specs.declared.answer.TheConstants.{MOST_BOUND};

mod expansion;
mod searched;
mod states;
pub(crate) mod taken;

use crate::cell_set::CellSet;
use crate::forwards::expansion::is_at;
use crate::forwards::searched::{Searched, search};
use crate::forwards::states::States;
use crate::query::Query;
use crate::reconstruction::reconstruct_path;
use crate::{Constraints, Distances};
use mapf_grid::{Cell, Map, NoMemory};
use mapf_plan::Path;
use std::alloc::Global;

/// Whether the cells of an f-level, in their order, are one nearer to the goal each, from one that is as far as the sum to the
/// goal. Then they are the agent's path, and it needn't be read backwards.
fn is_chain(query: &Query, sum: u32, level: &CellSet) -> bool
    ensures { IsTrue result ↔ IsChain query.now.table sum level.now }
{
    let cells = level.cells();
    if cells.len() != sum as usize + 1 {
        return false;
    }
    for place in 0..cells.len() {
        if !is_at(query, cells[place], sum - place as u32) {
            return false;
        }
    }
    true
}

/// The path that arrives on the goal at this time step, read from the states that were reached.
fn read_path(alloc: Global, query: &Query, searched: &Searched, end: u32) -> Result<Path, NoMemory>
    requires linked { AreLinked query.now (InFLevels query.now searched.now.nearest searched.now.levels.items) end }
    requires arrived { InFLevels query.now searched.now.nearest searched.now.levels.items end query.now.goal }
    requires short { end ≤ MOST_BOUND }
    ensures { IfOk result (λ path. IsReconstructed query.now
        (InFLevels query.now searched.now.nearest searched.now.levels.items) path 0 end) }
{
    if end == searched.nearest && searched.levels.len() == 1 {
        let level = &searched.levels[0];
        if is_chain(query, end, level) {
            return Ok(Path::of(Vec::from_slice(alloc, level.cells())?));
        }
    }
    let states = States { query, searched };
    reconstruct_path(alloc, query, &states, end)
}

/// An agent's own path, if it has one, beside the search that found it.
pub(crate) fn find(alloc: Global, query: &Query) -> Result<(Searched, Option<Path>), NoMemory>
    requires { HasDistances query.now }
    ensures searched { IfOk result (λ r. IsSearched query.now r.0.nearest r.0.levels.items r.0.end) }
    ensures path { IfOk result (λ r. IsFound query.now r.1) }
    ensures end { IfOk result (λ r. r.0.end ≡ option_map cost r.1) }
{
    let searched = search(alloc, query)?;
    let Some(end) = searched.end else {
        return Ok((searched, None));
    };
    let path = read_path(alloc, query, &searched, end)?;
    Ok((searched, Some(path)))
}

/// An agent's own path; none is looked for where its goal is forbidden at the bound or later.
pub(crate) fn own_path_of(alloc: Global, query: &Query) -> Result<Option<Path>, NoMemory>
    requires { HasDistances query.now }
    ensures { IfOk result (IsFound query.now) }
{
    if !query.may_end(query.bound()) {
        return Ok(None);
    }
    let (_searched, path) = find(alloc, query)?;
    Ok(path)
}

/// An agent's own path: of its paths of cost at most `bound` that obey the constraints at all times the least by
/// cost, and among equal costs the one with the smaller cell at the last place where two differ.
///
/// `distances` are those of the goal on this map. Only `NoMemory` is an error.
pub fn cheapest(
    alloc: Global,
    map: &Map,
    distances: &Distances,
    start: Cell,
    goal: Cell,
    constraints: &Constraints,
    bound: u32,
) -> Result<Option<Path>, NoMemory>
    requires start { IsFree map.now start }
    requires goal { IsFree map.now goal }
    requires distances { AreDistances map.now goal distances.now }
    requires bound { bound ≤ MOST_BOUND }
    ensures { IfOk result (λ found. MatchOption found
        ((p : List ℕ) → ¬ IsAllowed map.now start goal bound constraints.now p)
        (IsOwnPath map.now start goal bound constraints.now)) }
{
    let table = distances.table();
    let query = Query::new(alloc, map, table, start, goal, constraints, bound)?;
    own_path_of(alloc, &query)
}
