//! On which conflict of a free plan is branched: a guess, on which no answer rests.

ghost use Rattle.std.specs.Prelude.{◌≡◌, ◌≤◌};
ghost use Rattle.mapf_tree.specs.Prelude.{IsConflict, Grows, IsFreePlan, paths_of};

use crate::Side;
use crate::own_paths::path_cache::PathCache;
use crate::own_paths::path_cache::free_plans::FreePlan;
use crate::own_paths::start_tables::StartTables;
use mapf_grid::NoMemory;
use mapf_low::Lookup;
use mapf_plan::{Conflict, PairConflict};
use std::alloc::Global;

/// What a conflict's sides cost more; none where a side has no plan.
#[derive(Clone, Copy)]
pub(crate) struct Rises {
    left: Option<u64>,
    right: Option<u64>,
}

impl Rises {
    /// The greater, the less is left to search: no side, then one, then by how much the cheaper one costs more.
    fn score(self) -> u64 {
        match (self.left, self.right) {
            (None, None) => u64::MAX,
            (Some(_), None) | (None, Some(_)) => u64::MAX - 1,
            (Some(one), Some(other)) => one
                .min(other)
                .saturating_mul(1 << 20)
                .saturating_add(one.max(other)),
        }
    }
}

impl FreePlan {
    /// What is known of the sides of its conflicts that an agent has no part in.
    pub(super) fn rises_without(
        &self,
        alloc: Global,
        agent: usize,
    ) -> Result<Vec<Rises>, NoMemory> {
        let mut kept = Vec::with_capacity(alloc, self.rises.len())?;
        for (conflict, rises) in self.plan.conflicts.iter().zip(self.rises.iter()) {
            if usize::from(conflict.first) != agent && usize::from(conflict.second) != agent {
                kept.push(*rises)?;
            }
        }
        Ok(kept)
    }

    /// The two agents of the conflict that leaves least to search, with its time step.
    pub(super) fn best_pair(&self) -> Option<PairConflict> {
        let mut best = None;
        let mut greatest = 0;
        for (conflict, rises) in self.plan.conflicts.iter().zip(self.rises.iter()) {
            let score = rises.score();
            if best.is_none() || score > greatest {
                greatest = score;
                best = Some(*conflict);
            }
        }
        best
    }
}

impl<'p> PathCache<'p> {
    /// Looks for what the sides of a plan's conflicts cost more, where that isn't known.
    pub(super) fn add_rises(
        &mut self,
        tables: &mut StartTables<'p>,
        free: &mut FreePlan,
        most: u32,
    ) -> Result<(), NoMemory>
        requires tables { tables.old ≡ self.old.problem }
        requires free { IsFreePlan self.old free.old }
        requires most { most ≤ self.old.problem.bound }
        ensures tables { tables.new ≡ tables.old }
        ensures grows { Grows self.old self.new }
        ensures sets { free.new.sets ≡ free.old.sets }
        ensures plan { free.new.plan ≡ free.old.plan }
        ensures cost { free.new.cost ≡ free.old.cost }
    {
        for place in free.rises.len()..free.plan.conflicts.len() {
            let Some(pair) = free.plan.conflicts.get(place).copied() else {
                return Ok(());
            };
            let Some(conflict) = self.conflict_at(&free.plan, &pair) else {
                return Ok(());
            };
            let left = self.rise(tables, free, &conflict, Side::Left, most)?;
            let right = self.rise(tables, free, &conflict, Side::Right, most)?;
            free.rises.push(Rises { left, right })?;
        }
        Ok(())
    }

    /// What a side costs more; none where it has no plan that costs at most so much.
    fn rise(
        &mut self,
        tables: &mut StartTables<'p>,
        free: &FreePlan,
        conflict: &Conflict,
        side: Side,
        most: u32,
    ) -> Result<Option<u64>, NoMemory>
        requires tables { tables.old ≡ self.old.problem }
        requires free { IsFreePlan self.old free.now }
        requires conflict { IsConflict self.old.problem.rule (paths_of self.old free.now) conflict.now }
        requires most { most ≤ self.old.problem.bound }
        ensures tables { tables.new ≡ tables.old }
        ensures grows { Grows self.old self.new }
    {
        match self.free_side(tables, free, conflict, side, most)? {
            Lookup::Known(Some(found)) => Ok(Some(found.cost.saturating_sub(free.cost))),
            Lookup::Known(None) => Ok(None),
            Lookup::Unknown => Ok(Some(0)),
        }
    }
}
