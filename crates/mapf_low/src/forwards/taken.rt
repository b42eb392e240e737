ghost use Rattle.std.specs.Prelude.{◌≢◌, ℕ, ◌<◌, IfOk, OnOk, Contains};
ghost use Rattle.std.specs.List.{AllPairs};
ghost use Rattle.mapf_low.specs.Query.{HasDistances};
ghost use Rattle.mapf_low.specs.Forwards.FLevels.{IsWithin};
ghost use Rattle.mapf_low.specs.Forwards.Taken.{AreTakenBy, HasSum, Lists};

use crate::cell_set::CellSet;
use crate::forwards::find;
use crate::query::Query;
use mapf_grid::{Cell, NoMemory};
use std::alloc::Global;

/// Lists the states of an f-level behind those of lower sums.
fn list_level(
    query: &Query,
    sum: u32,
    level: &CellSet,
    states: &mut Vec<(Cell, u32)>,
) -> Result<(), NoMemory>
    requires within { (v : ℕ) → Contains level.now v → IsWithin query.now sum v }
    requires lower { (s : ℕ × ℕ) → Contains states.old.items s → HasSum query.now.table (λ m. m < sum) s }
    requires once { AllPairs ◌≢◌ states.old.items }
    ensures { OnOk result (Lists query.now.table sum level.now states.old.items states.new.items) }
{
    for cell in level.cells() {
        let distance = query.entry(*cell).unwrap();
        states.push((*cell, sum - distance))?;
    }
    Ok(())
}

/// The states that the search for an own path takes, in the order in which it takes them.
pub(crate) fn list_states(alloc: Global, query: &Query) -> Result<Vec<(Cell, u32)>, NoMemory>
    requires { HasDistances query.now }
    ensures { IfOk result (λ states. AreTakenBy query.now states.items) }
{
    let mut states = Vec::new(alloc);
    if !query.may_end(query.bound()) {
        return Ok(states);
    }
    let (searched, _path) = find(alloc, query)?;
    for more in 0..searched.levels.len() {
        let sum = searched.nearest + more as u32;
        list_level(query, sum, &searched.levels[more], &mut states)?;
    }
    Ok(states)
}
