ghost use Rattle.std.specs.Prelude.{◌≡◌, ◌↔◌, ℕ, ◌+◌, ◌<◌, [], Some, set, length, IsTrue, OnOk, Contains};
ghost use Rattle.mapf_low.specs.Backwards.Tracing.{IsJoined};
ghost use Rattle.mapf_low.specs.Backwards.StateTable.{IsSize, IsTable, place_of};

use mapf_grid::{Cell, NoMemory};
use std::alloc::Global;
use std::marker::Model;

/// A cell at a time step.
type State = (Cell, u32);

/// How many places a table has at first: many searches meet few states.
const FEW_PLACES: usize = 128;

/// How many it has once a quarter of the first have been taken.
const MANY_PLACES: usize = 4_096;

/// States, cells at time steps, that an agent can't be in, and how many more may join them. Each has one place, which its
/// numbers tell, and takes it from the one that was there. An older one is then forgotten, and the search only goes back
/// from it once more.
#[derive(Drop)]
pub(crate) struct DeadEnds {
    places: Vec<Option<State>>,
    /// How many states have joined.
    joined: usize,
    room: usize,
}

impl Model for DeadEnds {
    ghost use Rattle.mapf_low.specs.Backwards.Tracing.{DeadEnds};
    ghost use Rattle.mapf_low.specs.Backwards.StateTable.{IsTable, states_of};

    ghost Value = { DeadEnds };

    ghost view = { λ d. record { states = states_of d.places.items; room = d.room } };

    ghost invariant = { λ d. IsTable d.places.items };
}

impl DeadEnds {
    /// No state, and room for so many. No memory is taken before one is added.
    pub(crate) fn new(alloc: Global, room: usize) -> Self
        ensures states { result.states ≡ [] }
        ensures room { result.room ≡ room }
    {
        DeadEnds {
            places: Vec::new(alloc),
            joined: 0,
            room,
        }
    }

    /// Whether no more states may be added.
    pub(crate) fn is_full(&self) -> bool
        ensures { IsTrue result ↔ (self.now.room ≡ 0) }
    {
        self.room == 0
    }

    /// Whether the cell at this time step is one of the states.
    #[inline]
    pub(crate) fn contains(&self, cell: Cell, time: u32) -> bool
        ensures { IsTrue result ↔ Contains self.now.states (cell, time) }
    {
        !self.places.is_empty()
            && self.places[place_of(cell, time, self.places.len())] == Some((cell, time))
    }

    /// Adds the cell at this time step to the states, where another may be forgotten.
    pub(crate) fn add(&mut self, cell: Cell, time: u32) -> Result<(), NoMemory>
        requires { 0 < self.old.room }
        ensures states { OnOk result (IsJoined (cell, time) self.old.states self.new.states) }
        ensures room { OnOk result (self.new.room + 1 ≡ self.old.room) }
    {
        widen(places_for(self.joined), &mut self.places)?;
        put(cell, time, &mut self.places);
        self.joined = self.joined.saturating_add(1);
        self.room -= 1;
        Ok(())
    }
}

/// How many places a table wants that so many states have joined.
fn places_for(joined: usize) -> usize
    ensures { IsSize result }
{
    if joined < FEW_PLACES / 4 {
        FEW_PLACES
    } else {
        MANY_PLACES
    }
}

/// The place of a state in a table of so many places. States near each other in space and time rarely share one.
#[inline]
fn place_of(cell: Cell, time: u32, count: usize) -> usize
    requires { IsSize count }
    ensures { result ≡ place_of count (cell, time) }
{
    let number = u64::from(cell.number()) * 97 + u64::from(time) * 389;
    // Each count is a constant here, so a mask stands for the division.
    let place = if count == MANY_PLACES {
        number % MANY_PLACES as u64
    } else {
        number % FEW_PLACES as u64
    };
    place as usize
}

/// Puts a state at its place.
fn put(cell: Cell, time: u32, places: &mut [Option<State>])
    requires { IsSize (length places.old) }
    ensures { places.new ≡ set places.old (place_of (length places.old) (cell, time)) (Some (cell, time)) }
{
    let place = place_of(cell, time, places.len());
    places[place] = Some((cell, time));
}

/// Sees to it that there are at least so many places, with states of those that stood there before, each at its own place.
fn widen(count: usize, places: &mut Vec<Option<State>>) -> Result<(), NoMemory>
    requires count { IsSize count }
    requires table { IsTable places.old.items }
    ensures table { IsTable places.new.items }
    ensures count { OnOk result (IsSize (length places.new.items)) }
    ensures states { OnOk result
        ((s : ℕ × ℕ) → Contains places.new.items (Some s) → Contains places.old.items (Some s)) }
{
    if count <= places.len() {
        return Ok(());
    }
    let mut wider = vec![in *places.allocator(); None; count]?;
    for state in places.as_slice() {
        if let Some((cell, time)) = state {
            put(*cell, *time, &mut wider);
        }
    }
    *places = wider;
    Ok(())
}
