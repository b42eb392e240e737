ghost use Rattle.std.specs.Prelude.{◌≡◌, ◌↔◌, ℕ, ◌+◌, ◌<◌, [], length, replicate, None, IsTrue, IfOk, OnOk, Contains};
ghost use Rattle.mapf_grid.specs.Grid.{IsFree};
ghost use Rattle.mapf_low.specs.Backwards.Earliest.{AreEarliest, MayGo, HasEntry, Advances, IsLookedAt, IsAdvanced};
ghost use Rattle.mapf_plan.specs.declared.answer.TheConstants.{MOST_BOUND};

use crate::distances::table::Table;
use crate::query::Query;
use mapf_grid::{Cell, NoMemory};
use std::alloc::Global;
use std::mem::swap;

/// For each cell a time step before which the agent can't be there, under the constraints of the query; none, if it can't be
/// there by the bound. The table of the query is not read.
///
/// Time step by time step the agent goes on from the cells that it may have reached to their neighbours. A cell that was reached
/// counts as reached for good, though it may be forbidden later, so an entry may be too low.
pub(crate) fn earliest_arrivals(alloc: Global, query: &Query) -> Result<Table, NoMemory>
    ensures { IfOk result (AreEarliest query.now) }
{
    let mut table = Table::none(alloc, query.cells())?;
    let mut frontier = Vec::new(alloc);
    let mut next = Vec::new(alloc);
    begin(query, &mut table, &mut frontier)?;
    for time in 0..query.bound() {
        if frontier.is_empty() {
            return Ok(table);
        }
        advance(query, &frontier, time, &mut table, &mut next)?;
        swap(&mut frontier, &mut next);
        next.clear();
    }
    Ok(table)
}

/// Gives the start the time step 0, if it isn't forbidden then.
fn begin(query: &Query, table: &mut Table, frontier: &mut Vec<Cell>) -> Result<(), NoMemory>
    requires table { table.old ≡ replicate (length query.now.grid.free) None }
    requires frontier { frontier.old.items ≡ [] }
    ensures { OnOk result (IsAdvanced query.now 0 table.new frontier.new.items) }
{
    let start = query.start();
    if query.allows_at(start, 0) {
        frontier.push(start)?;
        table.set(start, 0);
    }
    Ok(())
}

/// Goes on from each cell of the frontier, where the agent may be at this time step; `next` are the cells to go on from then.
fn advance(
    query: &Query,
    frontier: &[Cell],
    time: u32,
    table: &mut Table,
    next: &mut Vec<Cell>,
) -> Result<(), NoMemory>
    requires early { time < MOST_BOUND }
    requires frontier { (v : ℕ) → Contains frontier.now v → IsFree query.now.grid v }
    requires table { length table.old ≡ length query.now.grid.free }
    ensures advances { OnOk result
        (Advances query.now.grid (time + 1) table.old table.new next.old.items next.new.items) }
    ensures looked_at { OnOk result
        ((u : ℕ) → Contains frontier.now u → IsLookedAt query.now time table.new next.new.items u) }
{
    for from in frontier {
        advance_from(query, *from, time, table, next)?;
    }
    Ok(())
}

/// Goes on from a cell, where the agent may be at this time step, to its neighbours. If not all of them have an entry then, it is to
/// be gone on from once more.
fn advance_from(
    query: &Query,
    from: Cell,
    time: u32,
    table: &mut Table,
    next: &mut Vec<Cell>,
) -> Result<(), NoMemory>
    requires early { time < MOST_BOUND }
    requires free { IsFree query.now.grid from }
    requires table { length table.old ≡ length query.now.grid.free }
    ensures advances { OnOk result
        (Advances query.now.grid (time + 1) table.old table.new next.old.items next.new.items) }
    ensures looked_at { OnOk result (IsLookedAt query.now time table.new next.new.items from) }
{
    let mut all_entered = true;
    for to in query.neighbours(from).as_slice() {
        all_entered &= enter(query, from, *to, time, table, next)?;
    }
    if !all_entered {
        next.push(from)?;
    }
    Ok(())
}

/// Gives a cell that has no entry the time step after this one, if the agent may go there from `from`. Tells whether the cell
/// has an entry then.
fn enter(
    query: &Query,
    from: Cell,
    to: Cell,
    time: u32,
    table: &mut Table,
    next: &mut Vec<Cell>,
) -> Result<bool, NoMemory>
    requires early { time < MOST_BOUND }
    requires free { IsFree query.now.grid to }
    requires inside { to < length table.old }
    ensures advances { OnOk result
        (Advances query.now.grid (time + 1) table.old table.new next.old.items next.new.items) }
    ensures entered { OnOk result (MayGo query.now time from to → HasEntry table.new to) }
    ensures tells { IfOk result (λ entered. IsTrue entered → HasEntry table.new to) }
{
    if table.get(to).is_some() {
        return Ok(true);
    }
    if !query.may_go(from, to, time) {
        return Ok(false);
    }
    next.push(to)?;
    table.set(to, time + 1);
    Ok(true)
}
