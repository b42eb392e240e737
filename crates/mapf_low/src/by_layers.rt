ghost use Rattle.std.specs.Prelude.{◌≡◌, ℕ, IfOk, OnOk, Contains};
ghost use Rattle.mapf_grid.specs.Grid.{IsFree};
ghost use Rattle.mapf_low.specs.Forwards.FLevels.{Grows};
ghost use Rattle.mapf_low.specs.Layers.{MayEnter, IsFirstLayer, IsNextLayer, InLayers};
ghost use Rattle.mapf_low.specs.Query.{HasDistances, IsFound};
ghost use Rattle.mapf_low.specs.Reached.{IsUsable, MayStep};

use crate::cell_set::CellSet;
use crate::query::Query;
use crate::reconstruction::{Reached, reconstruct_path};
use mapf_grid::{Cell, NoMemory};
use mapf_plan::Path;
use std::alloc::Global;

/// Adds the cell to those that are reached, if it is open and no constraint forbids the step.
fn generate(
    query: &Query,
    from: Cell,
    to: Cell,
    time: u32,
    reached: &mut CellSet,
) -> Result<(), NoMemory>
    ensures { OnOk result (Grows (λ v. (to ≡ v) × MayEnter query.now time from v) reached.old reached.new) }
{
    if query.is_usable(to, time) && query.allows_step(from, to, time) {
        reached.add(to)?;
    }
    Ok(())
}

/// Adds the cells that the agent may enter from this cell at this time step.
fn expand(query: &Query, from: Cell, time: u32, reached: &mut CellSet) -> Result<(), NoMemory>
    requires { IsFree query.now.grid from }
    ensures { OnOk result
        (Grows (λ v. IsUsable query.now query.now.bound time v × MayStep query.now time from v)
        reached.old reached.new) }
{
    generate(query, from, from, time, reached)?;
    for to in query.neighbours(from).as_slice() {
        generate(query, from, *to, time, reached)?;
    }
    Ok(())
}

/// The layer at time 0.
fn first_layer(alloc: Global, query: &Query) -> Result<CellSet, NoMemory>
    ensures { IfOk result (IsFirstLayer query.now) }
{
    let start = query.start();
    let mut layer = CellSet::new(alloc);
    if query.is_usable(start, 0) {
        layer.add(start)?;
    }
    Ok(layer)
}

/// The layer at this time step, from that of the time step before.
fn next_layer(alloc: Global, query: &Query, layer: &CellSet, time: u32) -> Result<CellSet, NoMemory>
    requires { (v : ℕ) → Contains layer.now v → IsFree query.now.grid v }
    ensures { IfOk result (IsNextLayer query.now time layer.now) }
{
    let mut reached = CellSet::new(alloc);
    reached.make_room(2 * layer.cells().len())?;
    for from in layer.cells() {
        expand(query, *from, time, &mut reached)?;
    }
    Ok(reached)
}

impl Reached for Vec<CellSet> {
    ghost has = { λ layers. InLayers layers.items };

    fn has(&self, cell: Cell, time: u32) -> bool {
        matches!(self.get(time as usize), Some(layer) if layer.contains(cell))
    }
}

/// An agent's own path, found by layers over time and read backwards from the first arrival.
pub(crate) fn search_by_layers(alloc: Global, query: &Query) -> Result<Option<Path>, NoMemory>
    requires { HasDistances query.now }
    ensures { IfOk result (IsFound query.now) }
{
    let bound = query.bound();
    let mut layers = Vec::new(alloc);
    layers.push(first_layer(alloc, query)?)?;
    for time in 0..bound + 1 {
        let layer = &layers[time as usize];
        if layer.is_empty() {
            return Ok(None);
        }
        if query.can_end(layer, time) {
            return Ok(Some(reconstruct_path(alloc, query, &layers, time)?));
        }
        let next = next_layer(alloc, query, layer, time + 1)?;
        layers.push(next)?;
    }
    Ok(None)
}
