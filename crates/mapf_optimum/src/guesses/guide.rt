//! What a search goes by.

use super::known_costs::KnownCosts;
use super::occupancy::Occupancy;
use crate::group_costs::agents_key;
use mapf_grid::NoMemory;
use mapf_tree::Problem;
use std::alloc::Global;
use std::collections::HashMap;

/// Where the agents are, what single ones would cost, and how much more effort is made.
#[derive(Drop)]
pub struct Guide {
    pub(crate) occupancy: Occupancy,
    pub(crate) costs: KnownCosts,
    /// How often no plan of a group was found.
    failures: HashMap<u64, u32>,
    /// How many more nodes of groups are expanded, at most.
    pub(crate) left: u64,
}

impl Guide {
    /// For a problem of whose agents none has a path.
    pub fn new(alloc: Global, problem: &Problem) -> Result<Guide, NoMemory> {
        Ok(Guide {
            occupancy: Occupancy::new(alloc, problem)?,
            costs: KnownCosts::new(alloc),
            failures: HashMap::new(alloc),
            left: 0,
        })
    }

    /// How often no plan of these agents was found.
    pub(crate) fn failures_of(&self, agents: &[usize]) -> u32 {
        match self.failures.get(&agents_key(agents)) {
            Some(failures) => *failures,
            None => 0,
        }
    }

    /// No plan of these agents was found.
    pub(crate) fn add_failure(&mut self, agents: &[usize]) -> Result<(), NoMemory> {
        let failures = self.failures_of(agents).saturating_add(1);
        self.failures.insert(agents_key(agents), failures)?;
        Ok(())
    }
}
