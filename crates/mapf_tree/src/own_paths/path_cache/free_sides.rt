//! The sides of a conflict of a free plan.

ghost use Rattle.std.specs.Prelude.{◌≡◌, ℕ, ◌≤◌, ◌<◌, List, length, slice_index, IfOk};
ghost use Rattle.mapf_tree.specs.Prelude.{IfKnown, Constraint, IsConflict, IsExtended, HasOneMore, HasSet, cost, path_of, agent_on, constraint_on, Grows, IsFreePlan, IsFreeSide, IsSidePlan, TellsUpTo, paths_of};

use crate::own_paths::path_cache::PathCache;
use crate::own_paths::path_cache::free_plans::FreePlan;
use crate::own_paths::start_tables::StartTables;
use crate::tree::side_query::left_of_bound;
use crate::tree::sides::{agent_of, constraint_of};
use crate::{Side, SideQuery};
use mapf_grid::NoMemory;
use mapf_low::{Constraints, Lookup};
use mapf_plan::{Conflict, MOST_BOUND};

/// What an agent has on a side of a conflict: its set and its own path under it, by number.
#[derive(Clone, Copy)]
pub(crate) struct FreeSide {
    pub(crate) agent: usize,
    pub(crate) set: usize,
    pub(crate) path: usize,
    /// What all paths cost then.
    pub(crate) cost: u64,
}

impl<'p> PathCache<'p> {
    /// The plan on a side of a conflict, where all paths cost at most so much; none where no valid plan costs so little there.
    pub(super) fn side_plan(
        &mut self,
        tables: &mut StartTables<'p>,
        free: &FreePlan,
        conflict: &Conflict,
        side: Side,
        most: u32,
    ) -> Result<Lookup<Option<FreePlan>>, NoMemory>
        requires tables { tables.old ≡ self.old.problem }
        requires free { IsFreePlan self.old free.now }
        requires conflict { IsConflict self.old.problem.rule (paths_of self.old free.now) conflict.now }
        requires most { most ≤ self.old.problem.bound }
        ensures tables { tables.new ≡ tables.old }
        ensures grows { Grows self.old self.new }
        ensures side { IfOk result (λ found. IfKnown found (IsSidePlan self.new free.now conflict.now side most)) }
    {
        match self.free_side(tables, free, conflict, side, most)? {
            Lookup::Known(Some(found)) => {
                let next = self.with_side(free, &found)?;
                Ok(Lookup::Known(Some(next)))
            }
            Lookup::Known(None) => Ok(Lookup::Known(None)),
            Lookup::Unknown => Ok(Lookup::Unknown),
        }
    }

    /// What a side of a conflict gives its agent, where all paths cost at most so much; none where no valid plan costs so little there.
    pub(super) fn free_side(
        &mut self,
        tables: &mut StartTables<'p>,
        free: &FreePlan,
        conflict: &Conflict,
        side: Side,
        most: u32,
    ) -> Result<Lookup<Option<FreeSide>>, NoMemory>
        requires tables { tables.old ≡ self.old.problem }
        requires free { IsFreePlan self.old free.now }
        requires conflict { IsConflict self.old.problem.rule (paths_of self.old free.now) conflict.now }
        requires most { most ≤ self.old.problem.bound }
        ensures tables { tables.new ≡ tables.old }
        ensures grows { Grows self.old self.new }
        ensures side { IfOk result (λ found. IfKnown found (IsFreeSide self.new free.now conflict.now side most)) }
    {
        if free.cost > u64::from(most) {
            return Ok(Lookup::Unknown);
        }
        let agent = agent_of(conflict, side);
        let old = self.cost_in(free, agent);
        let bound = left_of_bound(most, free.cost, old);
        let set = self.set_on(tables, free, conflict, side, bound)?;
        let Lookup::Known(path) = self.find_own_path(set, bound) else {
            return Ok(Lookup::Unknown);
        };
        let Some(number) = path else {
            return Ok(Lookup::Known(None));
        };
        let Some(path) = self.paths.path(number) else {
            return Ok(Lookup::Unknown);
        };
        Ok(Lookup::Known(Some(FreeSide {
            agent,
            set,
            path: number,
            cost: free.cost - u64::from(old) + u64::from(path.cost()),
        })))
    }

    /// The number of the set that a side gives its agent, of whose own path it is known whether it costs at most the bound.
    fn set_on(
        &mut self,
        tables: &mut StartTables<'p>,
        free: &FreePlan,
        conflict: &Conflict,
        side: Side,
        bound: u32,
    ) -> Result<usize, NoMemory>
        requires tables { tables.old ≡ self.old.problem }
        requires free { IsFreePlan self.old free.now }
        requires conflict { IsConflict self.old.problem.rule (paths_of self.old free.now) conflict.now }
        requires bound { bound ≤ self.old.problem.bound }
        ensures tables { tables.new ≡ tables.old }
        ensures grows { Grows self.old self.new }
        ensures set { IfOk result (IsExtended self.new.sets (slice_index free.now.sets.items (agent_on conflict.now side)) (constraint_on conflict.now side)) }
        ensures told { IfOk result (λ set. TellsUpTo self.new.sets set bound) }
    {
        let agent = agent_of(conflict, side);
        let constraint = constraint_of(conflict, side);
        let before = free.sets[agent];
        if let Some(extension) = self.sets.find_extension(usize::MAX, before, &constraint) {
            let after = extension.after;
            if let Lookup::Known(_) = self.find_own_path(after, bound) {
                return Ok(after);
            }
        }
        let query = self.query_on(free, conflict, side, bound)?;
        let after = self.set_of(tables, query)?;
        let _extension = self.sets.extend(self.alloc, before, constraint, after)?;
        Ok(after)
    }

    /// The query of the own path that a side asks for.
    fn query_on(
        &self,
        free: &FreePlan,
        conflict: &Conflict,
        side: Side,
        bound: u32,
    ) -> Result<SideQuery<'p>, NoMemory>
        requires free { IsFreePlan self.now free.now }
        requires conflict { IsConflict self.now.problem.rule (paths_of self.now free.now) conflict.now }
        requires bound { bound ≤ self.now.problem.bound }
        ensures problem { IfOk result (λ q. q.problem ≡ self.now.problem) }
        ensures bound { IfOk result (λ q. q.bound ≡ bound) }
        ensures agent { IfOk result (λ q. q.agent ≡ agent_on conflict.now side) }
        ensures constraint { IfOk result (λ q. q.constraint ≡ constraint_on conflict.now side) }
        ensures constraints { IfOk result (λ q. (cs : List Constraint) → HasSet self.now.sets (slice_index free.now.sets.items q.agent) q.agent cs
            → HasOneMore (constraint_on conflict.now side) cs q.constraints) }
    {
        let agent = agent_of(conflict, side);
        let constraint = constraint_of(conflict, side);
        let before = match self.sets.get(free.sets[agent]) {
            Some(set) => set.constraints.copy()?,
            None => Constraints::new(self.alloc),
        };
        let least = self.cost_in(free, agent);
        let most = self.problem.bound();
        prove!(u64::from(most) <= MOST_BOUND);
        Ok(SideQuery::under(
            self.problem,
            side,
            agent,
            constraint,
            before.and(constraint)?,
            bound,
            least,
        ))
    }

    /// The number of a query's set. Its own path is searched where it isn't known.
    fn set_of(
        &mut self,
        tables: &mut StartTables<'p>,
        query: SideQuery<'p>,
    ) -> Result<usize, NoMemory>
        requires tables { tables.old ≡ self.old.problem }
        requires problem { query.problem ≡ self.old.problem }
        requires bound { query.bound ≤ self.old.problem.bound }
        ensures tables { tables.new ≡ tables.old }
        ensures grows { Grows self.old self.new }
        ensures set { IfOk result (λ set. HasSet self.new.sets set query.entry.agent query.entry.constraints) }
        ensures told { IfOk result (λ set. TellsUpTo self.new.sets set query.entry.bound) }
    {
        if let Some(set) = self.find_set(&query) {
            return Ok(set);
        }
        let query = match tables.of(query.agent()) {
            Some(distances) => query.with_from_start(distances),
            None => query,
        };
        let path = query.own_path(self.alloc)?;
        let constraints = query.constraints().copy()?;
        self.add(query.agent(), constraints, query.bound(), path.as_ref())
    }

    /// What an agent's path costs.
    fn cost_in(&self, free: &FreePlan, agent: usize) -> u32
        requires free { IsFreePlan self.now free.now }
        requires agent { agent < length free.now.plan.numbers.items }
        ensures { result ≡ cost (path_of (paths_of self.now free.now) agent) }
    {
        match self.paths.path(free.plan.numbers[agent]) {
            Some(path) => path.cost(),
            None => 0,
        }
    }
}
