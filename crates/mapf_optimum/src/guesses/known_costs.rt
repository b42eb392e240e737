//! What agents' least paths cost, by what they are forbidden: each is searched once, as long as it is remembered.

use crate::part::Part;
use mapf_grid::NoMemory;
use mapf_low::Constraints;
use std::alloc::Global;
use std::collections::HashMap;

/// How many costs are remembered, at most: then all are forgotten.
const MOST_KNOWN: usize = 500_000;

/// What is known of agents' least paths. It stands under a number for each agent and set, which others seldom have.
#[derive(Drop)]
pub(crate) struct KnownCosts {
    costs: HashMap<u64, Option<u32>>,
}

impl KnownCosts {
    /// Nothing is known.
    pub(crate) fn new(alloc: Global) -> KnownCosts {
        KnownCosts {
            costs: HashMap::new(alloc),
        }
    }

    /// What a least path of one of the part's agents costs under these constraints; none where it has none within the problem's bound.
    pub(super) fn cost_under(
        &mut self,
        alloc: Global,
        part: &Part<'_, '_>,
        agent: usize,
        constraints: &Constraints,
    ) -> Result<Option<u32>, NoMemory> {
        let Some(number) = part.agents().get(agent) else {
            return Ok(None);
        };
        let key = constraints.mixed_into(*number as u64);
        if let Some(cost) = self.costs.get(&key) {
            return Ok(*cost);
        }
        let cost = part.low().cost_under(alloc, *number, constraints)?;
        if self.costs.len() >= MOST_KNOWN {
            self.costs.clear();
        }
        self.costs.insert(key, cost)?;
        Ok(cost)
    }
}
