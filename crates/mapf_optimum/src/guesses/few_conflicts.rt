//! A path with few conflicts.

use super::visit::Step;
use super::ways::Ways;
use crate::guesses::Occupancy;
use mapf_grid::{Cell, NoMemory};
use mapf_plan::{MOST_CELLS, Path};
use std::alloc::Global;

/// How an agent comes to a cell with the fewest collisions.
#[derive(Clone, Copy)]
struct Arrival {
    /// The place of the cell before.
    from: usize,
    collisions: u32,
    /// How many it meets there, if it comes from another cell.
    meetings: u32,
}

/// The collisions of a cell to which no way is known.
const UNKNOWN: u32 = u32::MAX;

/// A path of these with the fewest collisions with the agents that have a path in the table; none where there is none.
pub(super) fn few_conflicts(
    alloc: Global,
    ways: &Ways,
    occupancy: &Occupancy,
) -> Result<Option<Path>, NoMemory> {
    if ways.cells() == ways.last().saturating_add(1) {
        return Ok(None);
    }
    let nowhere = Arrival {
        from: 0,
        collisions: UNKNOWN,
        meetings: UNKNOWN,
    };
    let mut arrivals = vec![in alloc; nowhere; ways.cells()]?;
    if let Some(first) = arrivals.get_mut(0) {
        first.collisions = 0;
    }
    for (time, before) in (1..u32::MAX).zip(0..ways.last()) {
        for place in ways.begin(before)..ways.begin(before.saturating_add(1)) {
            go_on(ways, place, time, &mut arrivals, occupancy);
        }
    }
    trace(alloc, ways, &arrivals)
}

/// Goes on from the cell at a place, by the steps of a time step.
fn go_on(ways: &Ways, place: usize, time: u32, arrivals: &mut Vec<Arrival>, occupancy: &Occupancy) {
    let (Some(from), Some(known)) = (ways.cell(place), arrivals.get(place).copied()) else {
        return;
    };
    if known.collisions == UNKNOWN {
        return;
    }
    let is_entered = occupancy.is_entered(from, time);
    for next in ways.moves(place) {
        let (Some(to), Some(arrival)) = (ways.cell(*next), arrivals.get_mut(*next)) else {
            continue;
        };
        let step = Step { from, to, time };
        let mut collisions = known.collisions;
        if from == to {
            collisions = collisions.saturating_add(occupancy.meetings(&step));
        } else {
            if arrival.meetings == UNKNOWN {
                arrival.meetings = occupancy.meetings(&step);
            }
            collisions = collisions.saturating_add(arrival.meetings);
            if is_entered {
                collisions = collisions.saturating_add(occupancy.passings(&step));
            }
        }
        if collisions < arrival.collisions {
            arrival.from = place;
            arrival.collisions = collisions;
        }
    }
}

/// The path to the first cell of the last time step.
fn trace(alloc: Global, ways: &Ways, arrivals: &[Arrival]) -> Result<Option<Path>, NoMemory> {
    let mut cells: Vec<Cell> = Vec::new(alloc);
    let mut place = ways.begin(ways.last());
    for _cell in 0..MOST_CELLS {
        let (Some(cell), Some(arrival)) = (ways.cell(place), arrivals.get(place)) else {
            return Ok(None);
        };
        cells.push(cell)?;
        if place == 0 {
            break;
        }
        place = arrival.from;
    }
    if cells.is_empty() || cells.len() > MOST_CELLS {
        return Ok(None);
    }
    cells.reverse();
    Ok(Some(Path::of(cells)))
}
