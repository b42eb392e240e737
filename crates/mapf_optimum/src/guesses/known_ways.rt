//! The ways of agents, by what they are forbidden and what they cost: each is looked for once, as long as it is remembered.

use super::marks::Marks;
use super::ways::Ways;
use crate::together::Agent;
use mapf_grid::NoMemory;
use std::alloc::Global;
use std::collections::HashMap;

/// How many cells are remembered, at most: then all are forgotten.
const MOST_CELLS: usize = 1_000_000;

/// The ways that are known.
#[derive(Drop)]
pub(super) struct KnownWays {
    /// None where there are too many.
    ways: Vec<Option<Ways>>,
    /// Where those of an agent stand, by a number for what it is forbidden and what it costs, which others seldom have.
    places: HashMap<u64, usize>,
    cells: usize,
}

impl KnownWays {
    /// Nothing is known.
    pub(super) fn new(alloc: Global) -> KnownWays {
        KnownWays {
            ways: Vec::new(alloc),
            places: HashMap::new(alloc),
            cells: 0,
        }
    }

    /// At which place the agent's ways are known by its number; they are added if they aren't yet.
    pub(super) fn place_of(
        &mut self,
        alloc: Global,
        key: u64,
        agent: &Agent<'_, '_>,
        marks: &mut Marks,
    ) -> Result<usize, NoMemory> {
        if let Some(place) = self.places.get(&key) {
            return Ok(*place);
        }
        if self.cells > MOST_CELLS {
            self.ways.clear();
            self.places.clear();
            self.cells = 0;
        }
        let ways = Ways::new(alloc, agent, marks)?;
        if let Some(ways) = &ways {
            self.cells = self.cells.saturating_add(ways.cells());
        }
        let place = self.ways.len();
        self.ways.push(ways)?;
        self.places.insert(key, place)?;
        Ok(place)
    }

    /// The ways at a place, where there aren't too many.
    pub(super) fn at(&self, place: usize) -> Option<&Ways> {
        self.ways.get(place)?.as_ref()
    }
}
