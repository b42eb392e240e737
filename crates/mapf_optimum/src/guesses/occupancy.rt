//! Who is where, and when.

use super::few_conflicts::few_conflicts;
use super::known_ways::KnownWays;
use super::marks::Marks;
use super::visit::{Step, Visit};
use crate::together::Agent;
use mapf_grid::{Cell, NoMemory};
use mapf_plan::{Conflict, Path, Rule};
use mapf_tree::Problem;
use std::alloc::Global;

/// How much a collision with an agent of the same part counts, where one with another agent counts 1.
const HEAVY: u32 = 32;

/// The paths of some of a problem's agents, by cell.
#[derive(Drop)]
pub(crate) struct Occupancy {
    alloc: Global,
    rule: Rule,
    /// Who is on each cell, and when.
    visits: Vec<Vec<Visit>>,
    /// Each agent's path, if it has one here.
    paths: Vec<Option<Path>>,
    /// How much a collision with each of them counts.
    weights: Vec<u32>,
    /// For a search of one agent among the others.
    marks: Marks,
    ways: KnownWays,
}

impl Occupancy {
    /// Room for the agents of a problem, none of which has a path here.
    pub(crate) fn new(alloc: Global, problem: &Problem) -> Result<Occupancy, NoMemory> {
        let instance = problem.instance();
        let cells = instance.map().free_cells().len();
        let mut visits = Vec::with_capacity(alloc, cells)?;
        for _cell in 0..cells {
            visits.push(Vec::new(alloc))?;
        }
        let mut paths = Vec::with_capacity(alloc, instance.agents())?;
        for _agent in 0..instance.agents() {
            paths.push(None)?;
        }
        Ok(Occupancy {
            alloc,
            rule: problem.rule(),
            visits,
            paths,
            weights: vec![in alloc; 1; instance.agents()]?,
            marks: Marks::new(alloc, cells)?,
            ways: KnownWays::new(alloc),
        })
    }

    /// A path of the agent's cost with the fewest collisions with those that have a path here, where these of its part count more; none
    /// where no other one is found. The number is for the agent, what it is forbidden and what it costs.
    pub(crate) fn few_conflicts(
        &mut self,
        alloc: Global,
        key: u64,
        agent: &Agent<'_, '_>,
        part: &[usize],
    ) -> Result<Option<Path>, NoMemory> {
        let place = self.ways.place_of(alloc, key, agent, &mut self.marks)?;
        self.weigh(part, HEAVY);
        let found = match self.ways.at(place) {
            Some(ways) => few_conflicts(alloc, ways, self)?,
            None => None,
        };
        self.weigh(part, 1);
        Ok(found)
    }

    /// From now on a collision with one of these agents counts so much.
    fn weigh(&mut self, agents: &[usize], weight: u32) {
        for agent in agents {
            if let Some(place) = self.weights.get_mut(*agent) {
                *place = weight;
            }
        }
    }

    /// How much a collision with the agent counts.
    fn weight_of(&self, visit: &Visit) -> u32 {
        match self.weights.get(visit.agent) {
            Some(weight) => *weight,
            None => 1,
        }
    }

    /// Takes the agent's path out, if it has one here.
    pub(crate) fn take(&mut self, agent: usize) {
        let path = match self.paths.get_mut(agent) {
            Some(path) => path.take(),
            None => None,
        };
        let Some(path) = path else {
            return;
        };
        for cell in path.cells() {
            if let Some(visits) = self.visits.get_mut(cell.number() as usize) {
                visits.retain(|visit| visit.agent != agent);
            }
        }
    }

    /// Gives the agent, which has none here, a path.
    pub(crate) fn put(&mut self, agent: usize, path: &Path) -> Result<(), NoMemory> {
        for (time, cell) in (0..u32::MAX).zip(path.cells()) {
            if let Some(visits) = self.visits.get_mut(cell.number() as usize) {
                visits.push(Visit::of(agent, path, time))?;
            }
        }
        let copy = path.copy(self.alloc)?;
        if let Some(place) = self.paths.get_mut(agent) {
            *place = Some(copy);
        }
        Ok(())
    }

    /// Makes this the agent's path.
    pub(crate) fn set(&mut self, agent: usize, path: &Path) -> Result<(), NoMemory> {
        if !self.has(agent, path) {
            self.take(agent);
            self.put(agent, path)?;
        }
        Ok(())
    }

    /// Whether this is the agent's path here.
    fn has(&self, agent: usize, path: &Path) -> bool {
        match self.paths.get(agent) {
            Some(Some(known)) => known.cells() == path.cells(),
            _ => false,
        }
    }

    /// Who is on the cell, and when.
    fn visits_of(&self, cell: Cell) -> &[Visit] {
        match self.visits.get(cell.number() as usize) {
            Some(visits) => visits.as_slice(),
            None => &[],
        }
    }

    /// What it counts to make this step, by those that have a path here and meet the agent where it goes to.
    pub(super) fn meetings(&self, step: &Step) -> u32 {
        let mut count = 0_u32;
        for visit in self.visits_of(step.to) {
            if visit.meets(self.rule, step) {
                count = count.saturating_add(self.weight_of(visit));
            }
        }
        count
    }

    /// What it counts, by those that the agent passes where it comes from.
    pub(super) fn passings(&self, step: &Step) -> u32 {
        let mut count = 0_u32;
        for visit in self.visits_of(step.from) {
            if visit.passes(self.rule, step) {
                count = count.saturating_add(self.weight_of(visit));
            }
        }
        count
    }

    /// Whether one that has a path here comes to the cell from another one at this time step.
    pub(super) fn is_entered(&self, cell: Cell, time: u32) -> bool {
        self.visits_of(cell).iter().any(|visit| visit.enters(time))
    }

    /// Adds the conflicts of an agent without a path here, that takes this one, with those that have one.
    pub(crate) fn add_conflicts(
        &self,
        agent: usize,
        path: &Path,
        found: &mut Vec<Conflict>,
    ) -> Result<(), NoMemory> {
        let cost = path.cost();
        for time in 0..cost.saturating_add(1) {
            self.add_conflicts_of(agent, &Step::of(path, time), found)?;
        }
        let goal = path.at(cost);
        for visit in self.visits_of(goal) {
            if visit.time > cost {
                found.push(visit.meeting(agent, &Step::of(path, visit.time)))?;
            }
        }
        Ok(())
    }

    /// Adds the conflicts of an agent that makes this step.
    fn add_conflicts_of(
        &self,
        agent: usize,
        step: &Step,
        found: &mut Vec<Conflict>,
    ) -> Result<(), NoMemory> {
        let rule = self.rule;
        for visit in self.visits_of(step.to) {
            if visit.meets(rule, step) {
                found.push(visit.meeting(agent, step))?;
            }
        }
        for visit in self.visits_of(step.from) {
            if visit.passes(rule, step) {
                found.push(visit.passing(rule, agent, step))?;
            }
        }
        Ok(())
    }
}
