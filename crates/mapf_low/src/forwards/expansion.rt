ghost use Rattle.std.specs.Prelude.{◌≡◌, ◌↔◌, ℕ, ◌+◌, ◌≤◌, IsTrue, Some, OnOk, Contains};
ghost use Rattle.mapf_grid.specs.Grid.{IsFree};
ghost use Rattle.mapf_low.specs.Walk.{distance_at};
ghost use Rattle.mapf_low.specs.Query.{IsPosed};
ghost use Rattle.mapf_low.specs.Forwards.FLevels.{Grows, IsWithin, Admits, Leads, SomeLeads, Closes, ArePlaced};
ghost use Rattle.mapf_plan.specs.declared.answer.TheConstants.{MOST_BOUND};

use crate::cell_set::CellSet;
use crate::query::Query;
use mapf_grid::{Cell, NoMemory};

/// Whether the goal is this far from the cell.
#[inline]
pub(crate) fn is_at(query: &Query, cell: Cell, far: u32) -> bool
    ensures { IsTrue result ↔ (distance_at query.now.table cell ≡ Some far) }
{
    matches!(query.entry(cell), Some(distance) if distance == far)
}

/// Generates a state: adds a cell to the f-level, if it is this far from the goal and nothing forbids to arrive on it at this
/// time step.
#[inline]
fn generate(
    query: &Query,
    from: Cell,
    to: Cell,
    time: u32,
    far: u32,
    level: &mut CellSet,
) -> Result<(), NoMemory>
    requires { time ≤ query.now.bound + 1 }
    ensures { OnOk result (Grows (λ v. (to ≡ v) × Admits query.now time far from v) level.old level.new) }
{
    if is_at(query, to, far) && query.allows(from, to, time) {
        level.add(to)?;
    }
    Ok(())
}

/// The same of all neighbours of a cell.
#[inline]
fn generate_all(
    query: &Query,
    from: Cell,
    neighbours: &[Cell],
    time: u32,
    far: u32,
    level: &mut CellSet,
) -> Result<(), NoMemory>
    requires { time ≤ query.now.bound + 1 }
    ensures { OnOk result
        (Grows (λ v. Contains neighbours.now v × Admits query.now time far from v) level.old level.new) }
{
    for to in neighbours {
        generate(query, from, *to, time, far, level)?;
    }
    Ok(())
}

/// Expands a state within its f-level: adds the cells that it leads to with the same sum.
#[inline]
fn expand_within(query: &Query, sum: u32, from: Cell, level: &mut CellSet) -> Result<(), NoMemory>
    requires free { IsFree query.now.grid from }
    requires near { IsWithin query.now sum from }
    requires sum { sum ≤ query.now.bound }
    ensures { OnOk result (Grows (Leads query.now sum 0 from) level.old level.new) }
{
    let near = query.entry(from).unwrap();
    if near == 0 {
        return Ok(());
    }
    // A wait doesn't bring the goal nearer, so the neighbours are all.
    let time = sum - near + 1;
    let around = query.neighbours(from);
    generate_all(query, from, around.as_slice(), time, near - 1, level)?;
    Ok(())
}

/// Empties an f-level: expands all its states within it.
pub(crate) fn expand_level(query: &Query, sum: u32, level: &mut CellSet) -> Result<(), NoMemory>
    requires posed { IsPosed query.now }
    requires placed { ArePlaced query.now sum level.old }
    requires sum { sum ≤ query.now.bound }
    ensures closes { OnOk result (Closes query.now sum level.old level.new) }
    ensures placed { OnOk result (ArePlaced query.now sum level.new) }
{
    let mut place = 0;
    while place < level.cells().len() {
        let from = level.cells()[place];
        expand_within(query, sum, from, level)?;
        place += 1;
    }
    Ok(())
}

/// Expands a state beyond its f-level: adds the cells that it leads to with a sum that is higher by one or by two.
#[inline]
fn expand_beyond(
    query: &Query,
    sum: u32,
    from: Cell,
    next: &mut CellSet,
    after: &mut CellSet,
) -> Result<(), NoMemory>
    requires free { IsFree query.now.grid from }
    requires near { IsWithin query.now sum from }
    requires sum { sum ≤ query.now.bound }
    requires small { sum ≤ MOST_BOUND }
    ensures next { OnOk result (Grows (Leads query.now sum 1 from) next.old next.new) }
    ensures after { OnOk result (Grows (Leads query.now sum 2 from) after.old after.new) }
{
    let near = query.entry(from).unwrap();
    let time = sum - near + 1;
    let around = query.neighbours(from);
    let neighbours = around.as_slice();
    generate(query, from, from, time, near, next)?;
    generate_all(query, from, neighbours, time, near, next)?;
    // A wait doesn't take the goal farther away, so the neighbours are all.
    generate_all(query, from, neighbours, time, near + 1, after)?;
    Ok(())
}

/// Fills the next two f-levels: expands all states of an f-level beyond it.
pub(crate) fn fill_later_levels(
    query: &Query,
    sum: u32,
    level: &CellSet,
    next: &mut CellSet,
    after: &mut CellSet,
) -> Result<(), NoMemory>
    requires placed { ArePlaced query.now sum level.now }
    requires sum { sum ≤ query.now.bound }
    requires small { sum ≤ MOST_BOUND }
    ensures next { OnOk result (Grows (SomeLeads query.now sum 1 level.now) next.old next.new) }
    ensures after { OnOk result (Grows (SomeLeads query.now sum 2 level.now) after.old after.new) }
{
    // Mostly each cell leads to itself in the next f-level, and to few others.
    next.make_room(2 * level.cells().len())?;
    after.make_room(level.cells().len())?;
    for from in level.cells() {
        expand_beyond(query, sum, *from, next, after)?;
    }
    Ok(())
}
