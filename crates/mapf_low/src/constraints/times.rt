ghost use Rattle.std.specs.Prelude.{◌≡◌, ◌↔◌, ℕ, false, slice_index_or, IfOk, OnOk};
ghost use Rattle.mapf_low.specs.Best.{later_of, is_past};
ghost use Rattle.mapf_low.specs.Times.{Marks, AreMarked};

use crate::{Constraint, Constraints};
use mapf_grid::{Cell, NoMemory};
use std::alloc::Global;

/// The time of a constraint that forbids to be on the cell.
pub(crate) fn time_at(constraint: Constraint, place: Cell) -> Option<u32>
    ensures { (t : ℕ) → (result ≡ Some t) ↔ (constraint ≡ Constraint.Vertex place t) }
{
    match constraint {
        Constraint::Vertex { cell, time } if cell.number() == place.number() => Some(time),
        _ => None,
    }
}

/// The later of two times, where there is one.
pub(crate) fn later_of(one: Option<u32>, other: Option<u32>) -> Option<u32>
    ensures { result ≡ later_of one other }
{
    one.max(other)
}

/// Whether the time is after the last one, where there is a last one.
pub(crate) fn is_past(last: Option<u32>, time: u32) -> bool
    ensures { result ≡ is_past last time }
{
    match last {
        Some(last) => last < time,
        None => true,
    }
}

/// Marks a time step, if it is at most the bound.
fn mark(time: u32, bound: u32, marks: &mut Vec<bool>) -> Result<(), NoMemory>
    ensures { OnOk result (Marks time bound marks.old.items marks.new.items) }
{
    if bound < time {
        return Ok(());
    }
    let place = time as usize;
    if marks.len() <= place {
        marks.resize(place + 1, false)?;
    }
    marks[place] = true;
    Ok(())
}

/// A mark for each time step up to the bound of which there is a constraint.
pub(crate) fn busy_times(
    alloc: Global,
    constraints: &Constraints,
    bound: u32,
) -> Result<Vec<bool>, NoMemory>
    ensures { IfOk result (λ marks. AreMarked constraints.now bound marks.items) }
{
    let mut marks = Vec::new(alloc);
    for constraint in constraints.as_slice() {
        mark(constraint.time(), bound, &mut marks)?;
    }
    Ok(marks)
}

/// Whether the time step is marked.
#[inline]
pub(crate) fn is_busy(marks: &[bool], time: u32) -> bool
    ensures { result ≡ slice_index_or marks.now time false }
{
    marks.get(time as usize).copied().unwrap_or(false)
}
