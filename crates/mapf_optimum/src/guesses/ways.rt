//! Where an agent may be on paths of one cost.

use super::marks::Marks;
use crate::together::Agent;
use mapf_grid::{Cell, NoMemory};
use std::alloc::Global;

/// How many cells an agent may be on, at most, added up over all time steps: one that may be on more keeps its path.
const MOST_CELLS: usize = 20_000;

/// The cells on which an agent may be at each time step of a path of one cost, and where it may go from each.
#[derive(Drop)]
pub(super) struct Ways {
    /// Where it begins, then all cells of time step 1, and so on.
    cells: Vec<Cell>,
    /// At which place each time step's cells begin.
    steps: Vec<usize>,
    /// For each cell the places of those to which it may go.
    moves: Vec<usize>,
    /// At which place each cell's moves begin.
    first_moves: Vec<usize>,
}

impl Ways {
    /// All ways of an agent; none where these are too many.
    pub(super) fn new(
        alloc: Global,
        agent: &Agent<'_, '_>,
        marks: &mut Marks,
    ) -> Result<Option<Ways>, NoMemory> {
        let mut ways = Ways {
            cells: Vec::new(alloc),
            steps: Vec::new(alloc),
            moves: Vec::new(alloc),
            first_moves: Vec::new(alloc),
        };
        ways.cells.push(agent.start())?;
        let mut begin = 0;
        for time in 1..agent.least().saturating_add(1) {
            let end = ways.cells.len();
            if end > MOST_CELLS {
                return Ok(None);
            }
            ways.steps.push(begin)?;
            ways.add_step(alloc, agent, begin, end, time, marks)?;
            begin = end;
        }
        ways.steps.push(begin)?;
        Ok(Some(ways))
    }

    /// Adds the cells of this time step, from those of the time step before, which stand from one place to another.
    fn add_step(
        &mut self,
        alloc: Global,
        agent: &Agent<'_, '_>,
        begin: usize,
        end: usize,
        time: u32,
        marks: &mut Marks,
    ) -> Result<(), NoMemory> {
        marks.clear();
        let is_forbidden = agent.is_forbidden_at(time);
        let least = agent.least();
        let mut places = Vec::new(alloc);
        for place in begin..end {
            self.first_moves.push(self.moves.len())?;
            let Some(from) = self.cells.get(place) else {
                continue;
            };
            let from = *from;
            places.clear();
            agent.add_moves(from, time, is_forbidden, least, &mut places)?;
            for to in &places {
                self.add_move(to.cell, marks)?;
            }
        }
        Ok(())
    }

    /// Adds a move of the last cell that has moves.
    fn add_move(&mut self, to: Cell, marks: &mut Marks) -> Result<(), NoMemory> {
        let place = match marks.get(to) {
            Some(place) => place,
            None => {
                let place = self.cells.len();
                marks.put(to, place);
                self.cells.push(to)?;
                place
            }
        };
        self.moves.push(place)?;
        Ok(())
    }

    /// How many cells there are.
    pub(super) fn cells(&self) -> usize {
        self.cells.len()
    }

    /// The last time step.
    pub(super) fn last(&self) -> usize {
        self.steps.len().saturating_sub(1)
    }

    /// At which place the cells of a time step begin.
    pub(super) fn begin(&self, time: usize) -> usize {
        match self.steps.get(time) {
            Some(begin) => *begin,
            None => self.cells.len(),
        }
    }

    /// The cell at a place.
    pub(super) fn cell(&self, place: usize) -> Option<Cell> {
        self.cells.get(place).copied()
    }

    /// The places of the cells to which the agent may go from that at a place.
    pub(super) fn moves(&self, place: usize) -> &[usize] {
        let Some(begin) = self.first_moves.get(place) else {
            return &[];
        };
        let end = match self.first_moves.get(place.saturating_add(1)) {
            Some(end) => *end,
            None => self.moves.len(),
        };
        match self.moves.get(*begin..end) {
            Some(moves) => moves,
            None => &[],
        }
    }
}
